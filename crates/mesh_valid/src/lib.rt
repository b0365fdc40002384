// Whether bytes are a mesh: the tests 1 to 7.
#![tactic(auto)]

mod chains;
pub mod inner;
mod sizes;

ghost use Rattle.std.specs.Prelude.{◌≡◌};
ghost use Rattle.layout.specs.Answers.{answer_of, refused_as};
ghost use Rattle.mesh.specs.Mesh.{mesh_number, check_answer};

use chains::test_own;
use layout::Refusal;
use mesh::inner::cell_count;
use sizes::{sized, test_sizes};

// The first test that refuses the mesh.
pub fn test_mesh(m: &[u8]) -> Result<(), Refusal>
    ensures { refused_as result ≡ mesh_number m.now }
{
    test_sizes(m)?;
    test_own(sized(m))
}

// Whether the bytes are a mesh: the count of its cells, or its refusal.
pub fn check_mesh(m: &[u8]) -> Result<u32, Refusal>
    ensures { answer_of result ≡ check_answer m.now }
{
    test_mesh(m)?;
    Ok(cell_count(m) as u32)
}
