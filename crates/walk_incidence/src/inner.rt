// The chains of the cells turned round: from an element to its cells.
ghost use Rattle.std.specs.Prelude.{◌≡◌, map, ◌+◌, ◌<◌, ◌≤◌, length};
ghost use Rattle.layout.specs.Limits.{element_places, most_elements, most_records, record_places};
ghost use Rattle.mesh.specs.Mesh.{elements, record_count, first_cell, cell_count, element_in, follow};
ghost use Rattle.mesh.specs.Accepted.{Accepted};
ghost use Rattle.walk_incidence.specs.Links.{Links, link, link_all, link_cells, lists, seen, Turned};
ghost use Rattle.walk_incidence.specs.Sizes.{Sized};

pub use crate::trails::Trail;
use layout::limits::{ELEMENT_PLACES, RECORD_PLACES};
use layout::{get_or, put_at};
use mesh::inner::{cell_count, elements_of, first_cell, head_of, read_record, record_count};

// The sizes of a mesh: how many elements, records and cells it has, and its first cell.
#[derive(Clone, Copy)]
pub struct MeshSizes {
    pub elements: usize,
    pub records: usize,
    pub first: usize,
    pub cells: usize,
}

// Counts them.
pub fn sizes_of(m: &[u8]) -> MeshSizes
    ensures { Sized m.now result }
{
    MeshSizes {
        elements: elements_of(m),
        records: record_count(m),
        first: first_cell(m),
        cells: cell_count(m),
    }
}

// One entry more: element g in the chain of cell c.
fn link(c: u16, g: usize, t: usize, cell: &mut [u16], prev: &mut [u16], last: &mut [u16]) -> usize
    requires { t < most_records }
    ensures { (Links.links result cell.new prev.new last.new ≡ link c g (Links.links t cell.old prev.old last.old)) × (result ≡ t + 1) }
{
    let s = t + 1;
    put_at(cell, s, c);
    put_at(prev, s, get_or(last, g, 0));
    put_at(last, g, s as u16);
    s
}

// The entries of the chain from record h on, which is that of cell c.
fn link_chain(
    m: &[u8],
    n: usize,
    r: usize,
    h: usize,
    c: u16,
    t: usize,
    cell: &mut [u16],
    prev: &mut [u16],
    last: &mut [u16],
) -> usize
    requires { (n ≡ elements m.now) × (n ≤ most_elements) × (r ≤ most_records) × (h < 65536) × (t + length (follow m.now (r + 1) h) ≤ most_records) }
    ensures { Links.links result cell.new prev.new last.new
        ≡ link_all c (Links.links t cell.old prev.old last.old) (map (element_in m.now) (follow m.now (r + 1) h)) }
{
    let mut i = h;
    let mut s = t;
    for _k in 0..r + 1 {
        if i < 1 {
            return s;
        }
        let here = read_record(m, n, i);
        s = link(c, here.element, s, cell, prev, last);
        i = here.next;
    }
    s
}

// The entries of all cells' chains, added to lists of any length.
pub fn invert(
    m: &[u8],
    n: usize,
    r: usize,
    first: usize,
    cells: usize,
    cell: &mut [u16],
    prev: &mut [u16],
    last: &mut [u16],
) -> usize
    requires { Accepted m.now × (n ≡ elements m.now) × (r ≡ record_count m.now) × (first ≡ first_cell m.now) × (cells ≡ cell_count m.now) }
    ensures { Links.links result cell.new prev.new last.new ≡ link_cells m.now first cells (Links.links 0 cell.old prev.old last.old) }
{
    let mut s = 0;
    for e in first..first + cells {
        let h = head_of(m, e);
        s = link_chain(m, n, r, h, e as u16, s, cell, prev, last);
    }
    s
}

// Turns the chains of all cells round, whatever the lists held.
pub fn turn(m: &[u8], cell: &mut [u16], prev: &mut [u16], last: &mut [u16])
    requires { Accepted m.now × (length cell.old ≡ record_places) × (length prev.old ≡ record_places) × (length last.old ≡ element_places) }
    ensures { Turned m.now (lists cell.new prev.new last.new) }
{
    let sizes = sizes_of(m);
    last.fill(0);
    invert(
        m,
        sizes.elements,
        sizes.records,
        sizes.first,
        sizes.cells,
        cell,
        prev,
        last,
    );
}

// Which cells an element has. Each element of a cell's chain is an entry, numbered from 1: its cell, and the entry before it that has the same element.
// `last` has the last entry of each element.
// No heap: the lists of cells are entries of arrays, linked by their numbers.
#[derive(Drop)]
pub struct Incidence {
    pub cell: [u16; RECORD_PLACES],
    pub prev: [u16; RECORD_PLACES],
    pub last: [u16; ELEMENT_PLACES],
}

// The same in lists of any length, which are only read.
#[derive(Clone, Copy)]
pub struct IncidenceRef<'a> {
    pub cell: &'a [u16],
    pub prev: &'a [u16],
    pub last: &'a [u16],
}

impl Incidence {
    // Turns the chains of all cells round.
    pub fn invert(&mut self, m: &[u8])
        requires { Accepted m.now }
        ensures { Turned m.now self.new }
    {
        turn(m, &mut self.cell, &mut self.prev, &mut self.last);
    }

    // The arrays, to be read.
    pub fn view<'a>(&'a self) -> IncidenceRef<'a>
        ensures { seen result ≡ self.now }
    {
        IncidenceRef {
            cell: &self.cell,
            prev: &self.prev,
            last: &self.last,
        }
    }
}
