// The classes of the cells for one part, in a row of one byte a cell, from the owners and the table of the reaches.
ghost use Rattle.std.specs.Prelude.{◌≡◌, ◌&&◌, cond, ◌+◌, ◌≤◌, ◌<◌, length};
ghost use Rattle.layout.specs.Limits.{most_elements};
ghost use Rattle.split_classes.specs.Classes.{entry_owned, inside_at, entry_is, reach_has, Classed, RowCleared, OwnersMarked};

use layout::{get_or, put_at, word_at};
use split::inner::owner_of;

// The classes of owned cells. A part's number is at most 16, so these are free.
// Bytes, and no enum: a row has one byte a cell, in which the numbers of parts stand, too.
pub const INTERIOR: u8 = 17;

pub const HALO: u8 = 18;

// How many classes there are: none, the parts, interior and halo.
pub const CLASSES: usize = 19;

// Clears a row.
pub fn clear_row(class: &mut [u8])
    requires { length class.old ≡ most_elements }
    ensures { RowCleared most_elements class.new }
{
    class.fill(0);
}

// Marks the cell of entry t with its owner, unless that is part i: whether all entries so far are cells of part i.
fn mark_entry(
    owners: &[u8],
    table: &[u8],
    i: usize,
    t: usize,
    inside: bool,
    class: &mut [u8],
) -> bool
    requires { t < 65536 }
    ensures { (result ≡ inside && entry_owned owners.now table.now i t)
        × OwnersMarked owners.now i class.old class.new (entry_is table.now t) }
{
    let x = word_at(table, 2 * t);
    let owner = owner_of(owners, x);
    if owner as usize == i {
        return inside;
    }
    put_at(class, x, owner);
    false
}

// Marks the cells in the reach of the cell at place q that are not of part i: whether there are none.
fn mark_reach(
    owners: &[u8],
    table: &[u8],
    ends: &[u16],
    i: usize,
    q: usize,
    class: &mut [u8],
) -> bool
    requires { q < 65536 }
    ensures { (result ≡ inside_at owners.now table.now ends.now i q)
        × OwnersMarked owners.now i class.old class.new (reach_has table.now ends.now q) }
{
    let from = get_or(ends, q, 0) as usize;
    let to = get_or(ends, q + 1, 0) as usize;
    let mut inside = true;
    for t in from..to {
        inside = mark_entry(owners, table, i, t, inside, class);
    }
    inside
}

// The class of an owned cell.
fn owned_class(inside: bool) -> u8
    ensures { result ≡ cond inside 17 18 }
{
    if inside { INTERIOR } else { HALO }
}

// Brings in the cell at place q: the first q cells have told what they tell.
fn classify_cell(owners: &[u8], table: &[u8], ends: &[u16], i: usize, q: usize, class: &mut [u8])
    requires { (q < most_elements) × Classed owners.now table.now ends.now i q class.old }
    ensures { Classed owners.now table.now ends.now i (q + 1) class.new }
{
    if owner_of(owners, q) as usize != i {
        return;
    }
    let inside = mark_reach(owners, table, ends, i, q, class);
    put_at(class, q, owned_class(inside));
}

// The classes of all cells for part i: interior, halo, the number of the part that a cell is imported from, and 0 for a cell that is not held.
// Table, ends and map are slices of any length, read as 0 past their end: docs/ARCHITECTURE.md names this call, and no type of one size may ask more.
pub fn classify(owners: &[u8], table: &[u8], ends: &[u16], cells: usize, i: usize, class: &mut [u8])
    requires { (cells ≤ most_elements) × (length class.old ≡ most_elements) }
    ensures { Classed owners.now table.now ends.now i cells class.new }
{
    clear_row(class);
    for q in 0..cells {
        classify_cell(owners, table, ends, i, q, class);
    }
}
