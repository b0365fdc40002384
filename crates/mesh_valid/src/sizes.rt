// The tests 1 to 3: the sizes of a mesh. Each test answers true where the mesh is to be refused.
ghost use Rattle.std.specs.Prelude.{◌≡◌, [], ◌∷◌, ◌+◌, ◌*◌, ◌<◌};
ghost use Rattle.vocabulary.specs.Intervals.{some};
ghost use Rattle.vocabulary.specs.Tests.{refuse, first_of};
ghost use Rattle.layout.specs.Answers.{refused_as};
ghost use Rattle.mesh.specs.Mesh.{bad_count, bad1, bad2, bad3};

use layout::Refusal;
use layout::limits::{MOST_ELEMENTS, MOST_RECORDS};
use mesh::inner::{count_of, elements_of, record_count, top_of};
use mesh_chains::inner::SizedMesh;

fn bad1(m: &[u8]) -> bool
    ensures { result ≡ bad1 m.now }
{
    m.len() < 12 || !(1..=3).contains(&top_of(m))
}

// Elements of a dimension that has none, or none of one that should have some.
fn bad_count(m: &[u8], k: usize) -> bool
    requires { k < 4 }
    ensures { result ≡ bad_count m.now k }
{
    let d = top_of(m);
    let c = count_of(m, k);
    if k <= d { c == 0 } else { 0 < c }
}

fn bad_counts(m: &[u8]) -> bool
    ensures { result ≡ some 0 4 (bad_count m.now) }
{
    (0..4).any(|k| bad_count(m, k))
}

fn bad2(m: &[u8]) -> bool
    ensures { result ≡ bad2 m.now }
{
    if bad_counts(m) {
        return true;
    }
    let n = elements_of(m);
    if MOST_ELEMENTS < n {
        return true;
    }
    let r = record_count(m);
    MOST_RECORDS < r
}

fn bad3(m: &[u8]) -> bool
    ensures { result ≡ bad3 m.now }
{
    let n = elements_of(m);
    let r = record_count(m);
    m.len() != 2 * (6 + n + 2 * r)
}

// The first of them that refuses the mesh.
pub fn test_sizes(m: &[u8]) -> Result<(), Refusal>
    ensures { refused_as result ≡ first_of (refuse 1 (bad1 m.now) ∷ refuse 2 (bad2 m.now) ∷ refuse 3 (bad3 m.now) ∷ []) }
{
    if bad1(m) {
        return Err(Refusal::MeshHead);
    }
    if bad2(m) {
        return Err(Refusal::Counts);
    }
    if bad3(m) {
        return Err(Refusal::MeshLength);
    }
    Ok(())
}

// A mesh that they accept, with its sizes.
pub fn sized<'a>(m: &'a [u8]) -> SizedMesh<'a>
    requires { first_of (refuse 1 (bad1 m.now) ∷ refuse 2 (bad2 m.now) ∷ refuse 3 (bad3 m.now) ∷ []) ≡ 0 }
    ensures { result.bytes ≡ m.entry }
{
    SizedMesh {
        bytes: m,
        top: top_of(m),
        elements: elements_of(m),
        records: record_count(m),
    }
}
