// Depths and gaps in bytes. Here stands what takes any number; what supposes its bytes to be there is in `inner`.
#![tactic(auto)]

pub mod inner;

ghost use Rattle.std.specs.Prelude.{◌≡◌};
ghost use Rattle.depths.specs.Depths.{in_range};

// "Reading a depth gives either a depth or a gap, and whoever reads one must handle both." (F-2) Not an `Option`: the cases bear the names of the
// specification, whose definitions are told by them.
#[derive(Clone, Copy, Debug, PartialEq, Eq)]
pub enum Value {
    Depth(i32),
    Gap,
}

// Whether a depth is one that a field may hold.
pub fn in_range(z: i32) -> bool
    ensures { result ≡ in_range z }
{
    (-1200000..=1200000).contains(&z)
}
