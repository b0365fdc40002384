// The tests 4 and 5: records and elements of the chains. Each function answers true where the mesh is to be refused.
ghost use Rattle.std.specs.Prelude.{◌≡◌, false, ◌||◌, ◌+◌, ◌<◌, ◌≤◌, ltb, length};
ghost use Rattle.vocabulary.specs.Intervals.{some};
ghost use Rattle.vocabulary.specs.Lists.{repeats, some_of};
ghost use Rattle.layout.specs.Limits.{most_elements, most_records};
ghost use Rattle.mesh.specs.Mesh.{top, counted, below, elements, follow, all_records, headed, bad_chain, bad4, bad5};
ghost use Rattle.mesh.specs.Meet.{Met, meet};
ghost use Rattle.mesh_chains.specs.Written.{HasNoted, note, Places, MarksBelow, Wrote, Written};

pub use crate::chains::{Chains, SizedMesh};
use layout::limits::RECORD_PLACES;
use layout::put_at;
use mesh::inner::{count_of, head_of, is_empty, read_record};

// The arrays of a small mesh, since to clear them costs time at every call: a place for each element's number from 0 on, for the elements of the
// chains, and for each record's number from 0 on.
pub const FEW_ENDS: usize = 256;

pub const FEW_RECORDS: usize = 511;

const FEW_RECORD_PLACES: usize = FEW_RECORDS + 1;

fn point_headed(m: &[u8], points: usize) -> bool
    requires { points < 65536 }
    ensures { result ≡ some 1 points (headed m.now) }
{
    (1..1 + points).any(|e| !is_empty(m, e))
}

// Follows the chain from record h on, marks what it meets and writes its elements down from place `from` on. Gives the place after the last of
// them, and none where something is amiss: a record above r, or a marked one. Where nothing is amiss there is a place for every element. The count of
// the turns is bounded, since the loop goes from record to record by bytes that anyone may have written.
fn write_chain<'a>(
    mesh: SizedMesh<'a>,
    h: usize,
    from: usize,
    seen: &mut [u8],
    items: &mut [u16],
) -> Option<usize>
    requires { (h < 65536) × (from ≤ most_records) × (mesh.records < length seen.old) }
    ensures { let m = mesh.entry.bytes.now in let r = mesh.entry.records in
        HasNoted result seen.new items.new (note m r seen.old from items.old (follow m (r + 1) h)) }
{
    let r = mesh.records;
    let mut i = h;
    for t in from..from + r + 1 {
        if i < 1 {
            return Some(t);
        }
        if r < i {
            return None;
        }
        if seen[i] == 1 {
            return None;
        }
        seen[i] = 1;
        let here = read_record(mesh.bytes, mesh.elements, i);
        put_at(items, t, here.element as u16);
        i = here.next;
    }
    Some(from + r + 1)
}

// Whether some chain meets a record above r, or one that it or another chain met before. Where none does, all chains are written down.
// `seen` is for the marks of the records.
// Each chain begins where the last one ended, and is written: `any` with that effect is no plainer.
fn write_marked<'a>(
    mesh: SizedMesh<'a>,
    items: &mut [u16],
    ends: &mut [u16],
    seen: &mut [u8],
) -> bool
    requires { Places mesh.elements mesh.records items.old ends.old × MarksBelow mesh.records 1 seen.old }
    ensures { let m = mesh.entry.bytes.now in let r = mesh.entry.records in (result ≡ some_of (all_records m) (ltb r) || repeats (all_records m))
        × (result ≡ false → Wrote m mesh.entry.elements items.new ends.new) }
{
    let mut end = 0;
    for e in 1..1 + mesh.elements {
        let h = head_of(mesh.bytes, e);
        let Some(after) = write_chain(mesh, h, end, seen, items) else {
            return true;
        };
        end = after;
        ends[e] = end as u16;
    }
    false
}

// The same with K marks of its own.
fn write_with<'a, const K: usize>(mesh: SizedMesh<'a>, items: &mut [u16], ends: &mut [u16]) -> bool
    requires { Places mesh.elements mesh.records items.old ends.old × (mesh.records < K) × (K ≤ 65536) }
    ensures { let m = mesh.entry.bytes.now in let r = mesh.entry.records in (result ≡ some_of (all_records m) (ltb r) || repeats (all_records m))
        × (result ≡ false → Wrote m mesh.entry.elements items.new ends.new) }
{
    let mut seen = [0u8; K];
    write_marked(mesh, items, ends, &mut seen)
}

// Few marks where few records are counted.
fn write_all<'a>(mesh: SizedMesh<'a>, items: &mut [u16], ends: &mut [u16]) -> bool
    requires { Places mesh.elements mesh.records items.old ends.old }
    ensures { let m = mesh.entry.bytes.now in let r = mesh.entry.records in (result ≡ some_of (all_records m) (ltb r) || repeats (all_records m))
        × (result ≡ false → Wrote m mesh.entry.elements items.new ends.new) }
{
    if mesh.records <= FEW_RECORDS {
        write_with::<FEW_RECORD_PLACES>(mesh, items, ends)
    } else {
        write_with::<RECORD_PLACES>(mesh, items, ends)
    }
}

pub fn bad4<'a>(mesh: SizedMesh<'a>, items: &mut [u16], ends: &mut [u16]) -> bool
    requires { Places mesh.elements mesh.records items.old ends.old }
    ensures { let m = mesh.entry.bytes.now in (result ≡ bad4 m) × (result ≡ false → Written m items.new ends.new) }
{
    let points = count_of(mesh.bytes, 0);
    if point_headed(mesh.bytes, points) {
        return true;
    }
    write_all(mesh, items, ends)
}

// Marks the elements of a row; true where one is not from 1 to low, or is marked already.
fn bad_items(row: &[u16], low: usize, mark: u16, marks: &mut [u16]) -> bool
    requires { low < length marks.old }
    ensures { Met.met result marks.new ≡ meet mark low marks.old row.now }
{
    for &item in row {
        let g = usize::from(item);
        if g < 1 || low < g || marks[g] == mark {
            return true;
        }
        marks[g] = mark;
    }
    false
}

// Whether something is wrong in the chain of an element of dimension k, where `low` elements are of a lower one. Every mark is at most low before.
// The test marks what it meets: a loop with a way out, since `any` with that effect is no plainer.
fn bad_dimension<'a>(chains: Chains<'a>, k: usize, low: usize, marks: &mut [u16]) -> bool
    requires { (1 ≤ k) × (k ≤ top chains.mesh.bytes.now) × (low ≡ below chains.mesh.bytes.now k) × (low ≤ most_elements)
        × MarksBelow (elements chains.mesh.bytes.now) (low + 1) marks.old }
    ensures { let m = chains.entry.mesh.bytes.now in (result ≡ some (low + 1) (counted m k) (bad_chain m))
        × MarksBelow (elements m) (below m (k + 1) + 1) marks.new }
{
    let count = count_of(chains.mesh.bytes, k);
    for e in low + 1..low + 1 + count {
        if bad_items(chains.row(e), low, e as u16, marks) {
            return true;
        }
    }
    false
}

// Points have no chains. The marks that are left are numbers of elements.
// `low` grows from turn to turn: `any` over a closure that changes it is no plainer.
pub fn bad5<'a>(chains: Chains<'a>, marks: &mut [u16]) -> bool
    requires { MarksBelow (elements chains.mesh.bytes.now) 1 marks.old }
    ensures { let m = chains.entry.mesh.bytes.now in (result ≡ bad5 m)
        × (result ≡ false → MarksBelow (elements m) (elements m + 1) marks.new) }
{
    let mut low = count_of(chains.mesh.bytes, 0);
    for k in 1..1 + chains.mesh.top {
        if bad_dimension(chains, k, low, marks) {
            return true;
        }
        low += count_of(chains.mesh.bytes, k);
    }
    false
}
