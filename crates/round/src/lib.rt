// Fields and the undivided round.
#![tactic(auto)]

mod undivided;

ghost use Rattle.std.specs.Prelude.{◌≡◌};
ghost use Rattle.round.specs.Rounds.{bad14};

use depths::inner::values_valid;
pub use undivided::undivided_round;

// Whether a field is to be refused, with number 14, for a mesh of `cells` cells.
pub fn bad_field(cells: usize, f: &[u8]) -> bool
    ensures { result ≡ bad14 cells f.now }
{
    if f.len() % 4 != 0 {
        return true;
    }
    if f.len() / 4 != cells {
        return true;
    }
    !values_valid(f, 0, cells)
}
