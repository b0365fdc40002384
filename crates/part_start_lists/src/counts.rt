// How many cells of a row are of each class, and how many cells a part exports.
ghost use Rattle.std.specs.Prelude.{◌≡◌, ◌≤◌, ◌<◌, replicate};
ghost use Rattle.layout.specs.Limits.{most_elements};
ghost use Rattle.part_start_lists.specs.Starting.{Tallied, exported_at, export_tally};

use layout::{byte_at, get_or, put_at};
use split::inner::owner_of;

// Counts the cells of each class in a row, in a cleared array.
pub fn count_classes(class: &[u8], cells: usize, counts: &mut [u16])
    requires { (cells ≤ most_elements) × (counts.old ≡ replicate 19 0) }
    ensures { Tallied class.now cells counts.new }
{
    for q in 0..cells {
        let k = byte_at(class, q) as usize;
        let n = get_or(counts, k, 0);
        put_at(counts, k, n + 1);
    }
}

// How many parts the cell at place q is exported to, if part i owns it: all others that hold it.
fn exported_at(owners: &[u8], holders: &[u8], i: usize, q: usize) -> usize
    ensures { (result ≡ exported_at owners.now holders.now i q) × (result < 256) }
{
    if owner_of(owners, q) as usize != i {
        return 0;
    }
    let count = byte_at(holders, q) as usize;
    if count == 0 { 0 } else { count - 1 }
}

// How many cells part i exports to all parts together.
pub fn count_exports(owners: &[u8], holders: &[u8], i: usize, cells: usize) -> usize
    requires { cells ≤ most_elements }
    ensures { (result ≡ export_tally owners.now holders.now i cells) × (result ≤ 512000) }
{
    let mut n = 0;
    for q in 0..cells {
        n += exported_at(owners, holders, i, q);
    }
    n
}
