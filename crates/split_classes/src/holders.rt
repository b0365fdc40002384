// How many parts hold each cell. One part after another is counted at the cells that its own cells reach; a row of stamps has the last part that was
// counted at each cell, so that none is counted twice.
ghost use Rattle.std.specs.Prelude.{◌≡◌, ◌*◌, ◌≤◌, ◌<◌, eqb, length};
ghost use Rattle.vocabulary.specs.Bytes.{byte_at};
ghost use Rattle.layout.specs.Limits.{most_elements, most_parts};
ghost use Rattle.split_classes.specs.Classes.{reach_has, Raised, Few, row_sum, Holders};
ghost use Rattle.split_classes.specs.Groups.{group_reach};

use crate::classes::{CLASSES, clear_row};
use crate::groups::group_cells;
use layout::{byte_at, get_or, put_at, word_at};

// Counts part k at the cell at place x, unless the stamp there says that it is.
fn add_holder(x: usize, k: u8, stamps: &mut [u8], holders: &mut [u8])
    requires { (length stamps.old ≡ most_elements) × (length holders.old ≡ most_elements) × (byte_at holders.old x < 255) }
    ensures { Raised k stamps.old holders.old stamps.new holders.new (eqb x) }
{
    if byte_at(stamps, x) == k {
        return;
    }
    put_at(stamps, x, k);
    let count = byte_at(holders, x);
    put_at(holders, x, count + 1);
}

// Counts part k at the cells in the reach of the cell at place q.
fn add_reach(table: &[u8], ends: &[u16], q: usize, k: u8, stamps: &mut [u8], holders: &mut [u8])
    requires { (q < 65536) × (length stamps.old ≡ most_elements) × Few most_parts holders.old }
    ensures { Raised k stamps.old holders.old stamps.new holders.new (reach_has table.now ends.now q) }
{
    let from = get_or(ends, q, 0) as usize;
    let to = get_or(ends, q + 1, 0) as usize;
    for t in from..to {
        add_holder(word_at(table, 2 * t), k, stamps, holders);
    }
}

// Counts part k at all cells that it holds: at those that its own cells, which are linked, reach.
fn count_part(
    start: &[u16],
    next: &[u16],
    table: &[u8],
    ends: &[u16],
    cells: usize,
    k: u8,
    stamps: &mut [u8],
    holders: &mut [u8],
)
    requires { (length stamps.old ≡ most_elements) × Few 15 holders.old }
    ensures { Raised k stamps.old holders.old stamps.new holders.new (group_reach start.now next.now
        table.now ends.now cells k) }
{
    let mut s = get_or(start, k as usize, 0) as usize;
    for _t in 0..cells {
        if s < 1 {
            return;
        }
        add_reach(table, ends, s - 1, k, stamps, holders);
        s = get_or(next, s - 1, 0) as usize;
    }
}

// The sum of the counts at the cells.
fn sum_holders(holders: &[u8], cells: usize) -> usize
    requires { cells ≤ most_elements }
    ensures { result ≡ row_sum holders.now cells }
{
    let mut s = 0;
    for q in 0..cells {
        s += byte_at(holders, q) as usize;
    }
    s
}

// Counts at each cell the parts that hold it, and gives how many cells the parts hold together. The row of stamps is work space, and so is the array of links.
// Table, ends and map are slices of any length, as in `classify`.
pub fn count_holders(
    owners: &[u8],
    table: &[u8],
    ends: &[u16],
    cells: usize,
    parts: usize,
    stamps: &mut [u8],
    holders: &mut [u8],
    next: &mut [u16],
) -> usize
    requires { (cells ≤ most_elements) × (parts ≤ most_parts) × (length stamps.old ≡ most_elements) × (length holders.old ≡ most_elements) × (most_elements ≤ length next.old) }
    ensures { Holders owners.now table.now ends.now cells parts holders.new result }
{
    clear_row(stamps);
    clear_row(holders);
    let mut start = [0u16; CLASSES];
    group_cells(owners, cells, &mut start, next);
    for k in 0..parts {
        count_part(
            &start,
            next,
            table,
            ends,
            cells,
            (k + 1) as u8,
            stamps,
            holders,
        );
    }
    sum_holders(holders, cells)
}
