// Elements gathered in a step of a walk, each once.
ghost use Rattle.std.specs.Prelude.{◌≡◌, get_or, [], ◌∷◌, map, ◌+◌, ◌<◌, ◌≤◌};
ghost use Rattle.walk_frontier.specs.Visits.{Frontier, Toward, with, between, down, up, Added, Upward};
ghost use Rattle.walk_incidence.specs.Links.{seen};
ghost use Rattle.walk_incidence.specs.Trails.{rest};
ghost use Rattle.vocabulary.specs.Lists.{All};
ghost use Rattle.vocabulary.specs.Intervals.{blocks};
ghost use Rattle.layout.specs.Limits.{most_elements, most_records};
ghost use Rattle.mesh.specs.Mesh.{elements, record_count, element_in, follow};

use layout::get_or;
use mesh::inner::{head_of, read_record};
use walk_incidence::inner::{IncidenceRef, MeshSizes, Trail};

// The number at i of a list, and 0 past the end.
pub fn index_at(list: &[u16], i: usize) -> usize
    ensures { (result ≡ get_or list.now i 0) × (result < 65536) }
{
    get_or(list, i, 0) as usize
}

// Gathers y, unless it bears the mark.
pub fn visit(mark: u16, y: usize, marks: &mut [u16], found: &mut [u16], count: usize) -> usize
    requires { Frontier mark marks.old found.old count × (count ≤ most_elements) × (1 ≤ y) × (y ≤ most_elements) }
    ensures { Added mark marks.new found.old count found.new result
        (with found.old count (y ∷ [])) }
{
    if marks[y] == mark {
        return count;
    }
    marks[y] = mark;
    found[count] = y as u16;
    count + 1
}

// Gathers y, if it comes after lo and is at most hi.
// `(lo + 1..=hi).contains(&y)` is no plainer, and would ask a bound of lo.
fn visit_between(
    y: usize,
    lo: usize,
    hi: usize,
    mark: u16,
    marks: &mut [u16],
    found: &mut [u16],
    count: usize,
) -> usize
    requires { (hi ≤ most_elements) × Frontier mark marks.old found.old count × (count ≤ most_elements) }
    ensures { Added mark marks.new found.old count found.new result
        (with found.old count (between lo hi (y ∷ []))) }
{
    if y <= lo {
        return count;
    }
    if hi < y {
        return count;
    }
    visit(mark, y, marks, found, count)
}

// Gathers the elements after lo and up to hi of the chain from record h on.
pub fn visit_chain(
    m: &[u8],
    sizes: MeshSizes,
    h: usize,
    lo: usize,
    hi: usize,
    mark: u16,
    marks: &mut [u16],
    found: &mut [u16],
    count: usize,
) -> usize
    requires { (sizes.elements ≡ elements m.now) × (sizes.elements ≤ most_elements) × (sizes.records ≤ most_records) × (h < 65536) × (hi ≤ most_elements)
        × Frontier mark marks.old found.old count × (count ≤ most_elements) }
    ensures { Added mark marks.new found.old count found.new result
        (with found.old count (between lo hi (map (element_in m.now) (follow m.now (sizes.records + 1) h)))) }
{
    let mut i = h;
    let mut s = count;
    for _k in 0..sizes.records + 1 {
        if i < 1 {
            return s;
        }
        let here = read_record(m, sizes.elements, i);
        s = visit_between(here.element, lo, hi, mark, marks, found, s);
        i = here.next;
    }
    s
}

// Gathers the cells that are left of a trail.
pub fn visit_trail<'a>(
    trail: Trail<'a>,
    mark: u16,
    marks: &mut [u16],
    found: &mut [u16],
    count: usize,
) -> usize
    requires { All (λ y. (1 ≤ y) × (y ≤ most_elements)) (rest trail)
        × Frontier mark marks.old found.old count × (count ≤ most_elements) }
    ensures { Added mark marks.new found.old count found.new result
        (with found.old count (rest trail.entry)) }
{
    let mut s = count;
    for c in trail {
        s = visit(mark, c as usize, marks, found, s);
    }
    s
}

// From the first `count` cells of `from` to the elements after lo and up to hi in their chains, after those gathered before.
// By a count, and not by the length of `from`: a number past its end counts 0.
pub fn step_down(
    m: &[u8],
    sizes: MeshSizes,
    from: &[u16],
    count: usize,
    lo: usize,
    hi: usize,
    mark: u16,
    marks: &mut [u16],
    found: &mut [u16],
    base: usize,
) -> usize
    requires { (sizes.elements ≡ elements m.now) × (sizes.records ≡ record_count m.now) × (sizes.elements ≤ most_elements) × (sizes.records ≤ most_records) × (hi ≤ most_elements)
        × Frontier mark marks.old found.old base × (base ≤ most_elements) }
    ensures { Added mark marks.new found.old base found.new result
        (with found.old base (blocks 0 count (down m.now lo hi from.now))) }
{
    let mut s = base;
    for j in 0..count {
        let h = head_of(m, index_at(from, j));
        s = visit_chain(m, sizes, h, lo, hi, mark, marks, found, s);
    }
    s
}

// Gathers the numbers of a list.
pub fn visit_all(list: &[u16], mark: u16, marks: &mut [u16], found: &mut [u16]) -> usize
    requires { All (λ y. (1 ≤ y) × (y ≤ most_elements)) list.now × Frontier mark marks.old found.old 0 }
    ensures { Frontier mark marks.new found.new result × Toward found.new result [] (with found.old 0 list.now) × (result ≤ most_elements) }
{
    let mut s = 0;
    for &y in list {
        s = visit(mark, y as usize, marks, found, s);
    }
    s
}

// From the first `count` elements of `from` to their cells, after those gathered before. By a count, as `step_down`.
pub fn step_up(
    incidence: IncidenceRef,
    from: &[u16],
    count: usize,
    mark: u16,
    marks: &mut [u16],
    found: &mut [u16],
    base: usize,
) -> usize
    requires { Upward (seen incidence) from.now count × Frontier mark marks.old found.old base × (base ≤ most_elements) }
    ensures { Added mark marks.new found.old base found.new result
        (with found.old base (blocks 0 count (up (seen incidence.entry) from.now))) }
{
    let mut s = base;
    for j in 0..count {
        let cells = incidence.cells_at(index_at(from, j));
        s = visit_trail(cells, mark, marks, found, s);
    }
    s
}
