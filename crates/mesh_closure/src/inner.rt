// The tests 6 and 7: closed chains, and no element that is in no cell's chain. Each function answers true where the mesh is to be refused.
ghost use Rattle.std.specs.Prelude.{◌≡◌, false, ◌+◌, ◌*◌, ◌-◌, ◌<◌, ◌≤◌, length};
ghost use Rattle.vocabulary.specs.Lists.{some_of};
ghost use Rattle.mesh.specs.Mesh.{elements, chain, bad5, bad6, bad7};
ghost use Rattle.mesh.specs.Meet.{stamp, unlike};
ghost use Rattle.mesh_chains.specs.Written.{MarksBelow};
ghost use Rattle.mesh_closure.specs.Rows.{leaves_by, Names};

use mesh::inner::below_of;
use mesh_chains::inner::Chains;

// Marks the elements of a row.
fn stamp_items(row: &[u16], v: u16, marks: &mut [u16])
    requires { Names (length marks.old - 1) row.now }
    ensures { marks.new ≡ stamp v marks.old row.now }
{
    for &g in row {
        marks[usize::from(g)] = v;
    }
}

// Whether some element of a row does not bear the mark v.
// A loop over the places, and not `any`: the loop that the compiler makes of that one is slower at the ends of short rows (docs/DESIGN-PASS.md).
fn any_unmarked(row: &[u16], v: u16, marks: &[u16]) -> bool
    requires { Names (length marks.now - 1) row.now }
    ensures { result ≡ some_of row.now (unlike v marks.now) }
{
    for k in 0..row.len() {
        if marks[usize::from(row[k])] != v {
            return true;
        }
    }
    false
}

// Whether some element of the chain of f does not bear the mark v.
fn leaves_by<'a>(chains: Chains<'a>, f: usize, v: u16, marks: &[u16]) -> bool
    requires { (1 ≤ f) × (f ≤ elements chains.mesh.bytes.now) × (bad5 chains.mesh.bytes.now ≡ false) × (elements chains.mesh.bytes.now < length marks.now) }
    ensures { result ≡ leaves_by chains.entry.mesh.bytes.now v marks.now f }
{
    any_unmarked(chains.row(f), v, marks)
}

// Whether some element of a row has such a chain.
fn any_leaves<'a>(chains: Chains<'a>, row: &[u16], v: u16, marks: &[u16]) -> bool
    requires { Names (elements chains.mesh.bytes.now) row.now × (bad5 chains.mesh.bytes.now ≡ false) × (elements chains.mesh.bytes.now < length marks.now) }
    ensures { result ≡ some_of row.now (leaves_by chains.entry.mesh.bytes.now v marks.now) }
{
    row.iter()
        .any(|&f| leaves_by(chains, usize::from(f), v, marks))
}

// Marks the elements of the chain of e; true where one of them has a chain that leaves them.
fn unclosed<'a>(chains: Chains<'a>, e: usize, v: u16, marks: &mut [u16]) -> bool
    requires { (1 ≤ e) × (e ≤ elements chains.mesh.bytes.now) × (bad5 chains.mesh.bytes.now ≡ false) × (elements chains.mesh.bytes.now < length marks.old) }
    ensures { let m = chains.entry.mesh.bytes.now in (marks.new ≡ stamp v marks.old (chain m e))
        × (result ≡ some_of (chain m e) (leaves_by m v marks.new)) }
{
    let row = chains.row(e);
    stamp_items(row, v, marks);
    any_leaves(chains, row, v, marks)
}

// Chains of points alone are closed, so this begins with the elements of dimension 2. Its marks are above those that test 5 leaves.
// The test marks what it meets: a loop with a way out, since `any` with that effect is no plainer.
pub fn bad6<'a>(chains: Chains<'a>, marks: &mut [u16]) -> bool
    requires { (bad5 chains.mesh.bytes.now ≡ false) × MarksBelow chains.mesh.elements (chains.mesh.elements + 1) marks.old }
    ensures { (result ≡ bad6 chains.entry.mesh.bytes.now)
        × (result ≡ false → MarksBelow chains.entry.mesh.elements (2 * chains.entry.mesh.elements + 1) marks.new) }
{
    let n = chains.mesh.elements;
    let low = below_of(chains.mesh.bytes, 2);
    for e in low + 1..1 + n {
        if unclosed(chains, e, (n + e) as u16, marks) {
            return true;
        }
    }
    false
}

// The chains of the cells are the last ones. Its mark is above those that test 6 leaves.
pub fn bad7<'a>(chains: Chains<'a>, marks: &mut [u16]) -> bool
    requires { (bad5 chains.mesh.bytes.now ≡ false) × MarksBelow chains.mesh.elements (2 * chains.mesh.elements + 1) marks.old }
    ensures { result ≡ bad7 chains.entry.mesh.bytes.now }
{
    let low = below_of(chains.mesh.bytes, chains.mesh.top);
    let mark = (2 * chains.mesh.elements + 1) as u16;
    stamp_items(chains.rows_after(low), mark, marks);
    (1..1 + low).any(|g| marks[g] != mark)
}
