// The test 10.
#![tactic(auto)]

ghost use Rattle.std.specs.Prelude.{◌≡◌, length};
ghost use Rattle.vocabulary.specs.Intervals.{every};
ghost use Rattle.mesh.specs.Walks.{valid_at, bad10};

use layout::byte_at;
use layout::limits::STENCIL_BYTES;

// Whether place k is valid: the dimension of the cells at an even place, and a lower one at an odd place.
fn valid_at(d: usize, stencil: &[u8], k: usize) -> bool
    ensures { result ≡ valid_at d stencil.now k }
{
    let a = byte_at(stencil, k) as usize;
    if k % 2 == 0 { a == d } else { a < d }
}

fn all_valid(d: usize, stencil: &[u8]) -> bool
    ensures { result ≡ every 0 (length stencil.now) (valid_at d stencil.now) }
{
    (0..stencil.len()).all(|k| valid_at(d, stencil, k))
}

// Whether the bytes are no stencil for cells of dimension d.
pub fn bad_stencil(d: usize, stencil: &[u8]) -> bool
    ensures { result ≡ bad10 d stencil.now }
{
    if stencil.len() % 2 != 1 {
        return true;
    }
    if STENCIL_BYTES < stencil.len() {
        return true;
    }
    !all_valid(d, stencil)
}
