// The tests 1 to 7 in lent space, for calls that have arrays of that size anyway.
ghost use Rattle.std.specs.Prelude.{◌≡◌, ◌≤◌, length};
ghost use Rattle.vocabulary.specs.Lists.{Zeros};
ghost use Rattle.layout.specs.Answers.{refused_as};
ghost use Rattle.layout.specs.Limits.{element_places, most_records};
ghost use Rattle.mesh.specs.Mesh.{mesh_number};

use crate::chains::test_chains;
use crate::sizes::{sized, test_sizes};
use layout::Refusal;

// The first test that refuses the mesh. What the lent arrays hold afterwards does not matter.
// As `test_mesh` but for its last line: one for both would take that line as a closure.
pub fn test_mesh_in(m: &[u8], items: &mut [u16], ends: &mut [u16]) -> Result<(), Refusal>
    requires { (most_records ≤ length items.old) × Zeros element_places ends.old }
    ensures { refused_as result ≡ mesh_number m.now }
{
    test_sizes(m)?;
    test_chains(sized(m), items, ends)
}
