// The cells of a row that have the same byte, linked by rising place: of a row of owners the cells of each part, of a row of classes those of each class.
ghost use Rattle.std.specs.Prelude.{◌≡◌, ◌≤◌, length, replicate};
ghost use Rattle.layout.specs.Limits.{most_elements};
ghost use Rattle.split_classes.specs.Groups.{Grouped};

use layout::{byte_at, get_or, put_at};

// Links the cells of a row by their byte, in a cleared array of starts. It goes from the last cell to the first, so that each is put before those that it
// precedes. A byte that has no start is linked to nothing.
// No heap: the cells of a byte are linked by their places. The map may be shorter than `cells`: past its end an owner is 0.
pub fn group_cells(row: &[u8], cells: usize, start: &mut [u16], next: &mut [u16])
    requires { (cells ≤ most_elements) × (start.old ≡ replicate 19 0) × (most_elements ≤ length next.old) }
    ensures { Grouped row.now cells start.new next.new }
{
    for t in 0..cells {
        let q = cells - 1 - t;
        let k = byte_at(row, q) as usize;
        put_at(next, q, get_or(start, k, 0));
        put_at(start, k, (q + 1) as u16);
    }
}
