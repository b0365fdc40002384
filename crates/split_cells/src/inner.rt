// The lists of the cells of one class, by a row of classes.
ghost use Rattle.std.specs.Prelude.{◌+◌, ◌≤◌, ◌<◌};
ghost use Rattle.vocabulary.specs.Intervals.{blocks};
ghost use Rattle.layout.specs.Limits.{most_elements, most_parts};
ghost use Rattle.split_classes.specs.Classes.{of_class, class_cells, class_order, Appended};
ghost use Rattle.split_classes.specs.Groups.{group_cells, group_order, Linked};

use layout::limits::MOST_ELEMENTS;
use layout::{byte_at, get_or, put_at};
use split_classes::inner::{CLASSES, HALO, INTERIOR, group_cells};

// Adds the number of place q, counted from `first`, to the list, if the row has the class k there.
pub fn add_place(class: &[u8], first: usize, k: u8, q: usize, list: &mut [u16], s: usize) -> usize
    requires { (first + q < 65536) × (s < 4294967296) }
    ensures { Appended list.old list.new s result (of_class class.now first k q) × (result ≤ s + 1) }
{
    if byte_at(class, q) != k {
        return s;
    }
    put_at(list, s, (first + q) as u16);
    s + 1
}

// Adds the numbers of class k to the list, which has s numbers, and gives how many it has then.
// No heap: the cells go into a lent array, and t says how many.
pub fn add_class(
    class: &[u8],
    first: usize,
    cells: usize,
    k: u8,
    list: &mut [u16],
    s: usize,
) -> usize
    requires { (first + cells ≤ 65536) × (s < 65536) }
    ensures { Appended list.old list.new s result (class_cells class.now first cells k) × (result ≤ s + cells) }
{
    let mut t = s;
    for q in 0..cells {
        t = add_place(class, first, k, q, list, t);
    }
    t
}

// Adds the numbers of the linked cells of class k to the list, which has s numbers, and gives how many it has then.
fn add_group(
    start: &[u16],
    next: &[u16],
    k: usize,
    first: usize,
    cells: usize,
    list: &mut [u16],
    s: usize,
) -> usize
    requires { (first + cells ≤ 65536) × (cells ≤ most_elements) × Linked cells start.now next.now × (k < 19) × (s < 65536) }
    ensures { Appended list.old list.new s result (group_cells start.now next.now first cells k)
        × (result ≤ s + cells) }
{
    let mut t = s;
    let mut i = get_or(start, k, 0) as usize;
    for _n in 0..cells {
        if i < 1 {
            return t;
        }
        put_at(list, t, (first + (i - 1)) as u16);
        t += 1;
        i = get_or(next, i - 1, 0) as usize;
    }
    t
}

// Adds the imports by their owners.
fn add_imported(
    start: &[u16],
    next: &[u16],
    first: usize,
    cells: usize,
    parts: usize,
    list: &mut [u16],
    s: usize,
) -> usize
    requires { (first + cells ≤ 65536) × (cells ≤ most_elements) × Linked cells start.now next.now × (parts ≤ most_parts) × (s ≤ 4000) }
    ensures { Appended list.old list.new s result (blocks 1 parts (group_cells start.now next.now first cells)) }
{
    let mut t = s;
    for j in 0..parts {
        t = add_group(start, next, j + 1, first, cells, list, t);
    }
    t
}

// Adds the linked cells in the local order: interior, halo, and the imports by their owners.
fn add_groups(
    start: &[u16],
    next: &[u16],
    first: usize,
    cells: usize,
    parts: usize,
    list: &mut [u16],
) -> usize
    requires { (first + cells ≤ 65536) × (cells ≤ most_elements) × Linked cells start.now next.now × (parts ≤ most_parts) }
    ensures { Appended list.old list.new 0 result (group_order start.now next.now first cells parts) }
{
    let inner = add_group(start, next, INTERIOR as usize, first, cells, list, 0);
    let own = add_group(start, next, HALO as usize, first, cells, list, inner);
    add_imported(start, next, first, cells, parts, list, own)
}

// The local order of the part that the row is of, in the list from its start on. The cells are linked by their class first, so that each is met once.
pub fn add_order(class: &[u8], first: usize, cells: usize, parts: usize, list: &mut [u16]) -> usize
    requires { (first + cells ≤ 65536) × (cells ≤ most_elements) × (parts ≤ most_parts) }
    ensures { Appended list.old list.new 0 result (class_order class.now first cells parts) }
{
    let mut start = [0u16; CLASSES];
    let mut next = [0u16; MOST_ELEMENTS];
    group_cells(class, cells, &mut start, &mut next);
    add_groups(&start, &next, first, cells, parts, list)
}
