// What a part makes of the lower elements, and the ranges of those of one class.
ghost use Rattle.std.specs.Prelude.{◌≡◌, length};
ghost use Rattle.layout.specs.Limits.{most_elements};
ghost use Rattle.mesh.specs.Accepted.{Accepted};
ghost use Rattle.walk_incidence.specs.Links.{cells_on, Inverted, seen};
ghost use Rattle.split_classes.specs.Classes.{held_one, Appended};
ghost use Rattle.split_ranges.specs.Lowers.{side_at, some_side, trail_class, Lowered, row_range};

use layout::byte_at;
use mesh::inner::{below_of, count_of, first_cell, top_of};
use split::inner::place_from;
use split_cells::inner::add_class;
use split_classes::inner::INTERIOR;
use walk_incidence::inner::IncidenceRef;

// The classes of a lower element.
// Bytes of a row, as the classes of cells are: `split_cells: add_class` takes rows of both.
pub const PRIVATE: u8 = 1;

pub const EXPOSED: u8 = 2;

pub const SHARED: u8 = 3;

pub const COPIED: u8 = 4;

// The least class of an owned cell: interior, and halo is the next.
const OWNED: u8 = INTERIOR;

// What is asked of a cell at an element: whether the part owns it, another part does, the part holds it, another part does.
#[derive(Clone, Copy)]
enum Side {
    Mine,
    Anothers,
    Held,
    HeldByAnother,
}

// One if the part holds the cell at place q.
fn held_one(class: &[u8], q: usize) -> u8
    ensures { result ≡ held_one class.now q }
{
    if byte_at(class, q) == 0 { 0 } else { 1 }
}

// The cell at place q.
fn has_side(side: Side, class: &[u8], holders: &[u8], q: usize) -> bool
    ensures { result ≡ side_at side class.now holders.now q }
{
    match side {
        Side::Mine => OWNED <= byte_at(class, q),
        Side::Anothers => byte_at(class, q) < OWNED,
        Side::Held => byte_at(class, q) != 0,
        Side::HeldByAnother => held_one(class, q) < byte_at(holders, q),
    }
}

// Whether one of the cells at element e passes.
fn some_cell(
    incidence: IncidenceRef,
    e: usize,
    first: usize,
    side: Side,
    class: &[u8],
    holders: &[u8],
) -> bool
    ensures { result ≡ some_side (cells_on (seen incidence.entry) e) first side class.now holders.now }
{
    incidence.cells_at(e).any(|c| has_side(side, class, holders, place_from(first, c as usize)))
}

// What the part makes of element e: its class, and 0 if it does not hold it.
// A byte of the row, as the definition `lower_class` gives it: an `Option` would be turned back at once.
fn lower_class(incidence: IncidenceRef, first: usize, class: &[u8], holders: &[u8], e: usize) -> u8
    ensures { result ≡ trail_class (seen incidence.entry) first class.now holders.now e }
{
    if some_cell(incidence, e, first, Side::Mine, class, holders) {
        if some_cell(incidence, e, first, Side::Anothers, class, holders) {
            return SHARED;
        }
        if some_cell(incidence, e, first, Side::HeldByAnother, class, holders) {
            return EXPOSED;
        }
        return PRIVATE;
    }
    if some_cell(incidence, e, first, Side::Held, class, holders) {
        return COPIED;
    }
    0
}

// The classes of the lower elements of dimension k for the part that the row of cells is of. There are none from the cells' dimension on.
// A loop over the numbers themselves: q tells the place in the row and the number of the element.
pub fn classify_lowers(
    m: &[u8],
    incidence: IncidenceRef,
    class: &[u8],
    holders: &[u8],
    k: usize,
    lower: &mut [u8],
)
    requires { Inverted m.now (seen incidence) × (length lower.old ≡ most_elements) }
    ensures { Lowered m.now class.now holders.now k lower.new }
{
    if top_of(m) <= k {
        return;
    }
    let first = first_cell(m);
    let below = below_of(m, k);
    let n = count_of(m, k);
    for q in 0..n {
        lower[q] = lower_class(incidence, first, class, holders, below + 1 + q);
    }
}

// The range of dimension k and of one class, in the list from its start on, by the classes of the elements.
pub fn add_range(m: &[u8], k: usize, lower: &[u8], wanted: u8, list: &mut [u16]) -> usize
    requires { Accepted m.now }
    ensures { Appended list.old list.new 0 result (row_range m.now k lower.now wanted) }
{
    if top_of(m) <= k {
        return 0;
    }
    add_class(lower, below_of(m, k) + 1, count_of(m, k), wanted, list, 0)
}
