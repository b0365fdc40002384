// Which cells the cells of each row reach, whatever the rows are.
ghost use Rattle.std.specs.Prelude.{◌≡◌, ◌+◌, ◌<◌, ◌≤◌, length};
ghost use Rattle.vocabulary.specs.Intervals.{total};
ghost use Rattle.layout.specs.Limits.{element_places, most_elements, most_parts};
ghost use Rattle.mesh.specs.Meet.{Under};
ghost use Rattle.walk_steps.specs.Walking.{Grounded};
ghost use Rattle.walk_part_reach.specs.Rows.{Rowed, layer_one, layer_count, row_reach_count};

use layout::{byte_at, put_at};
use walk_frontier::inner::index_at;
use walk_incidence::inner::MeshSizes;
use walk_steps::inner::{Space, Walker};

// Adds the cell at place q to the k cells in a list, if it is of row i.
fn add_cell(rows: &[u8], i: usize, first: usize, q: usize, list: &mut [u16], k: usize) -> usize
    requires { (first + q ≤ most_elements) × Rowed first rows.now i q k list.old }
    ensures { Rowed first rows.now i (q + 1) result list.new }
{
    if byte_at(rows, q) as usize != i {
        return k;
    }
    put_at(list, k, (first + q) as u16);
    k + 1
}

// Puts the cells of row i into a list: how many they are.
// No heap: the cells go into a lent array, and n says how many.
fn row_cells(rows: &[u8], i: usize, first: usize, cells: usize, list: &mut [u16]) -> usize
    requires { (first + cells ≤ element_places) × (length list.old ≡ element_places) }
    ensures { Rowed first rows.now i cells result list.new }
{
    let mut n = 0;
    for q in 0..cells {
        n = add_cell(rows, i, first, q, list, n);
    }
    n
}

// One if place q has a layer.
fn count_place(layers: &[u16], first: usize, q: usize) -> usize
    requires { (first < 65536) × (q < 65536) }
    ensures { (result ≡ layer_one layers.now first q) × (result ≤ 1) }
{
    if index_at(layers, first + q) == 0 {
        0
    } else {
        1
    }
}

// How many cells have a layer.
fn count_row(layers: &[u16], first: usize, cells: usize) -> usize
    requires { (first < 65536) × (cells < 65536) }
    ensures { (result ≡ layer_count layers.now first cells) × (result ≤ cells) }
{
    let mut k = 0;
    for q in 0..cells {
        k += count_place(layers, first, q);
    }
    k
}

// How many cells the cells of row i reach, by walks from all of them at once.
fn count_reach(walker: Walker, rows: &[u8], i: usize, mark: usize, space: &mut Space) -> usize
    requires { Grounded walker × (mark ≤ 60000) × Under mark space.old.marks }
    ensures { (result ≡ row_reach_count walker.entry.mesh.now walker.entry.stencil.now rows.now i) × (result ≤ most_elements)
        × Under (mark + length walker.entry.stencil.now) space.new.marks }
{
    let MeshSizes { first, cells, .. } = walker.sizes;
    let s = row_cells(rows, i, first, cells, &mut space.from);
    space.layers.fill(0);
    walker.walk(s, walker.stencil.len() - 1, mark, space);
    count_row(&space.layers, first, cells)
}

// How many cells the cells of each row from 1 on reach, together over as many rows as `count`. The byte of `rows` at a cell's place tells its row.
// Each turn walks with marks after those of the last: a sum over that is no plainer.
pub fn count_all(walker: Walker, rows: &[u8], count: usize, space: &mut Space) -> usize
    requires { Grounded walker × (count ≤ most_parts) }
    ensures { result ≡ total 1 count (row_reach_count walker.entry.mesh.now walker.entry.stencil.now rows.now) }
{
    space.marks.fill(0);
    let mut mark = 1;
    let mut s = 0;
    for i in 0..count {
        s += count_reach(walker, rows, i + 1, mark, space);
        mark += walker.stencil.len();
    }
    s
}
