// What a list call asks for, and the words of a list of cells.
ghost use Rattle.std.specs.Prelude.{◌≡◌, ◌≤◌};
ghost use Rattle.layout.specs.Limits.{most_parts};
ghost use Rattle.mesh.specs.Accepted.{Accepted};
ghost use Rattle.split_classes.specs.Classes.{Appended};
ghost use Rattle.split_wanted.specs.Giving.{other_of, row_of, range_wanted, cell_words};

use mesh::inner::{cell_count, first_cell};
use split::Wanted;
use split_cells::inner::{add_class, add_order};
use split_classes::inner::{HALO, INTERIOR};
use split_ranges::inner::{COPIED, EXPOSED, PRIVATE, SHARED};

// The other part that the list names, and the part i itself where it names none.
pub fn other_of(wanted: Wanted, i: u32) -> u32
    ensures { result ≡ other_of wanted i }
{
    match wanted {
        Wanted::Imports(j) | Wanted::Exports(j) => j,
        _ => i,
    }
}

// The part whose row of classes tells the list: exports to j are what j imports.
pub fn row_of(wanted: Wanted, i: u32) -> u32
    ensures { result ≡ row_of wanted i }
{
    match wanted {
        Wanted::Exports(j) => j,
        _ => i,
    }
}

// The class of the lower elements in a range and their dimension, and nothing for a list of cells.
pub fn range_wanted(wanted: Wanted) -> Option<(u8, u32)>
    ensures { result ≡ range_wanted wanted }
{
    match wanted {
        Wanted::Private(k) => Some((PRIVATE, k)),
        Wanted::Exposed(k) => Some((EXPOSED, k)),
        Wanted::Shared(k) => Some((SHARED, k)),
        Wanted::Copied(k) => Some((COPIED, k)),
        _ => None,
    }
}

// The words of a list of cells, and their count, from the row of classes that tells it; none for a range.
// A range has no cells, so the 0 is a true count, as the definition `cell_words` has [] there.
pub fn cell_words(
    wanted: Wanted,
    m: &[u8],
    parts: usize,
    class: &[u8],
    i: usize,
    list: &mut [u16],
) -> usize
    requires { Accepted m.now × (parts ≤ most_parts) × (i ≤ most_parts) × (other_of wanted i ≤ most_parts) }
    ensures { Appended list.old list.new 0 result (cell_words wanted m.now parts class.now i) }
{
    let first = first_cell(m);
    let cells = cell_count(m);
    match wanted {
        Wanted::Interior => add_class(class, first, cells, INTERIOR, list, 0),
        Wanted::Halo => add_class(class, first, cells, HALO, list, 0),
        Wanted::Locals => add_order(class, first, cells, parts, list),
        Wanted::Imports(j) => add_class(class, first, cells, j as u8, list, 0),
        Wanted::Exports(_) => add_class(class, first, cells, i as u8, list, 0),
        _ => 0,
    }
}
