// The tests 4 to 7: the chains of a mesh.
ghost use Rattle.std.specs.Prelude.{◌≡◌, ◌<◌, ◌≤◌};
ghost use Rattle.vocabulary.specs.Tests.{first_of};
ghost use Rattle.layout.specs.Answers.{refused_as};
ghost use Rattle.mesh.specs.Mesh.{elements, chain_tests};
ghost use Rattle.mesh_chains.specs.Written.{Places, MarksBelow};

use layout::Refusal;
use layout::limits::{ELEMENT_PLACES, MOST_RECORDS};
use mesh_chains::inner::{Chains, FEW_ENDS, FEW_RECORDS, SizedMesh, bad4, bad5};
use mesh_closure::inner::{bad6, bad7};

// The first of them that refuses the mesh, of chains that test 4 accepts. The tests 5 to 7 share the lent marks: each has marks above those of the
// test before it.
fn test_marked<'a>(chains: Chains<'a>, marks: &mut [u16]) -> Result<(), Refusal>
    requires { MarksBelow (elements chains.mesh.bytes.now) 1 marks.old }
    ensures { refused_as result ≡ first_of (chain_tests chains.entry.mesh.bytes.now) }
{
    if bad5(chains, marks) {
        return Err(Refusal::ChainElement);
    }
    if bad6(chains, marks) {
        return Err(Refusal::Closure);
    }
    if bad7(chains, marks) {
        return Err(Refusal::Uncovered);
    }
    Ok(())
}

// The same with K marks of its own.
fn test_with<'a, const K: usize>(chains: Chains<'a>) -> Result<(), Refusal>
    requires { (chains.mesh.elements < K) × (K ≤ 65536) }
    ensures { refused_as result ≡ first_of (chain_tests chains.entry.mesh.bytes.now) }
{
    let mut marks = [0u16; K];
    test_marked(chains, &mut marks)
}

// Few marks for a small mesh.
fn test_written<'a>(chains: Chains<'a>) -> Result<(), Refusal>
    ensures { refused_as result ≡ first_of (chain_tests chains.entry.mesh.bytes.now) }
{
    if chains.mesh.elements < FEW_ENDS {
        test_with::<FEW_ENDS>(chains)
    } else {
        test_with::<ELEMENT_PLACES>(chains)
    }
}

// The first of the tests 4 to 7 that refuses the mesh. Test 4 writes the chains down for the others, in lent space.
pub fn test_chains<'a>(
    mesh: SizedMesh<'a>,
    items: &mut [u16],
    ends: &mut [u16],
) -> Result<(), Refusal>
    requires { Places mesh.elements mesh.records items.old ends.old }
    ensures { refused_as result ≡ first_of (chain_tests mesh.entry.bytes.now) }
{
    if bad4(mesh, items, ends) {
        return Err(Refusal::Record);
    }
    test_written(Chains { mesh, items, ends })
}

// The same with space of its own, for I items and E ends.
fn test_in<'a, const I: usize, const E: usize>(mesh: SizedMesh<'a>) -> Result<(), Refusal>
    requires { (mesh.records ≤ I) × (mesh.elements < E) × (I ≤ 65536) × (E ≤ 65536) }
    ensures { refused_as result ≡ first_of (chain_tests mesh.entry.bytes.now) }
{
    let mut items = [0u16; I];
    let mut ends = [0u16; E];
    test_chains(mesh, &mut items, &mut ends)
}

// Little space for a small mesh.
pub fn test_own<'a>(mesh: SizedMesh<'a>) -> Result<(), Refusal>
    ensures { refused_as result ≡ first_of (chain_tests mesh.entry.bytes.now) }
{
    if mesh.elements < FEW_ENDS && mesh.records <= FEW_RECORDS {
        test_in::<FEW_RECORDS, FEW_ENDS>(mesh)
    } else {
        test_in::<MOST_RECORDS, ELEMENT_PLACES>(mesh)
    }
}
