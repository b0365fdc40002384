// The cells two steps from each cell, listed once.
ghost use Rattle.std.specs.Prelude.{◌≡◌, true, ◌+◌, ◌-◌, ◌*◌, ◌<◌, ◌≤◌, length};
ghost use Rattle.vocabulary.specs.Lists.{Zeros};
ghost use Rattle.layout.specs.Limits.{element_places, most_elements};
ghost use Rattle.mesh.specs.Meet.{Under};
ghost use Rattle.mesh.specs.Mesh.{top, cell_count};
ghost use Rattle.mesh.specs.Accepted.{Cell};
ghost use Rattle.walk_steps.specs.Walking.{Grounded};
ghost use Rattle.walk_near_cells.specs.NearCells.{NearRow, NearRows, RowPut, WalksReady};

use layout::byte_at;
use layout::inner::copy_items;
use layout::limits::ELEMENT_PLACES;
use walk_frontier::inner::visit;
use walk_steps::inner::{Space, Walker};

// The most cells in a row: long rows name the same cells over and over, and a walk step by step is then faster.
const LONGEST: usize = 12;

// The cells two steps from cell c, by way of dimension a: in `from` they stand after c itself and before the place given.
fn near_to(walker: Walker, a: usize, c: usize, mark: usize, space: &mut Space) -> usize
    requires { Grounded walker × (a < top walker.mesh.now) × Cell walker.mesh.now c × (mark ≤ 60000) × Under mark space.old.marks }
    ensures { NearRow walker.entry.mesh.now a c space.new.from 1 result × (result ≤ most_elements) × Under (mark + 2) space.new.marks
        × (length space.new.from ≡ element_places) × (space.new.layers ≡ space.old.layers) }
{
    let n = walker.walk_down(
        a,
        mark as u16,
        &mut space.marks,
        &mut space.found,
        0,
        &[c as u16],
    );
    let next = (mark + 1) as u16;
    let own = visit(next, c, &mut space.marks, &mut space.from, 0);
    walker.walk_up(
        next,
        &mut space.marks,
        &mut space.from,
        own,
        &space.found[..n],
    )
}

// Copies a row without its first number.
fn put_row(near: &mut [u16], at: usize, row: &[u16])
    requires { (1 ≤ length row.now) × (at + (length row.now - 1) ≤ length near.old) }
    ensures { RowPut near.old at row.now near.new }
{
    let rest = &row[1..];
    copy_items(&mut near[at..at + rest.len()], rest);
}

// Lists the rows of all cells, each w places wide, unless one is longer. Gives whether they are listed.
// Each turn walks and writes a row, unless it is too long: `all` with these effects is no plainer.
fn list_rows(walker: Walker, a: usize, w: usize, space: &mut Space) -> bool
    requires { Grounded walker × (a < top walker.mesh.now) × (cell_count walker.mesh.now * w ≤ element_places) × Under 1 space.old.marks
        × Zeros element_places space.old.layers }
    ensures { (result ≡ true → NearRows walker.entry.mesh.now a space.new.layers w (cell_count walker.entry.mesh.now)) × Under 4001 space.new.marks
        × (length space.new.from ≡ element_places) × (length space.new.layers ≡ element_places) }
{
    for q in 0..walker.sizes.cells {
        let s = near_to(walker, a, walker.sizes.first + q, 2 * q + 1, space);
        if w < s - 1 {
            return false;
        }
        put_row(&mut space.layers, q * w, &space.from[..s]);
    }
    true
}

// Lists the cells two steps from each cell in `layers`, if the stencil goes through one dimension and the rows are short. Gives the width of the rows.
// `single` is a fact of the stencil, and no choice of a step.
pub fn near_rows(walker: Walker, space: &mut Space) -> Option<usize>
    requires { Grounded walker × Under 1 space.old.marks × Zeros element_places space.old.layers }
    ensures { WalksReady walker.entry.mesh.now walker.entry.stencil.now result 4001 space.new }
{
    if !walker.single || walker.stencil.len() < 2 {
        return None;
    }
    let a = byte_at(walker.stencil, 1) as usize;
    let w = LONGEST.min(ELEMENT_PLACES / walker.sizes.cells);
    if !list_rows(walker, a, w, space) {
        space.layers.fill(0);
        return None;
    }
    space.from.fill(0);
    Some(w)
}
