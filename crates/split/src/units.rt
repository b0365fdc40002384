// A cell's global number from its local one and back, through the part's list, which has the global numbers in local order. For the way back
// the list is turned round once, so that no cell is searched for. The place of a cell among the mesh's cells.
ghost use Rattle.std.specs.Prelude.{◌≡◌, ◌-◌, ◌≤◌, ◌<◌, length, take, get_or};
ghost use Rattle.split.specs.Split.{global_of};
ghost use Rattle.split.specs.Numbering.{numbering};

use cell_numbers::{Global, Local};
use layout::{get_or, put_at};

// The cell of a local number.
pub fn to_global(order: &[u16], l: Local) -> Global
    requires { 1 ≤ l.0 }
    ensures { result.0 ≡ global_of order.now l.0 }
{
    Global(get_or(order, l.0 as usize - 1, 0))
}

// Turns the n cells of the part's list round: at each cell's number its local number is stored. It goes from the last cell to the first, so
// that the first place of a cell decides, as in the definition.
pub fn number_cells(order: &[u16], n: usize, local: &mut [u16])
    requires { (n ≤ length order.now) × (n < 65536) }
    ensures { local.new ≡ numbering 0 (take n order.now) local.old }
{
    for k in 0..n {
        let l = Local((n - k) as u16);
        let c = to_global(order, l);
        put_at(local, c.0 as usize, l.0);
    }
}

// The local number of a cell of the part's inverted list.
pub fn to_local(local: &[u16], c: Global) -> Local
    ensures { result.0 ≡ get_or local.now c.0 0 }
{
    Local(get_or(local, c.0 as usize, 0))
}

// The place of a cell, and 0 for a number before the first cell.
pub fn place_from(first: usize, y: usize) -> usize
    ensures { (result ≡ y - first) × (result ≤ y) }
{
    if y < first { 0 } else { y - first }
}
