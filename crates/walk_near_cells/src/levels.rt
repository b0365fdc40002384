// A walk from cell to cell, by the lists of near cells: each level goes on from the cells that the one before it has met.
ghost use Rattle.std.specs.Prelude.{◌≡◌, [], ◌∷◌, ◌+◌, ◌-◌, ◌≤◌, ◌<◌, eqb, length};
ghost use Rattle.vocabulary.specs.Lists.{Zeros};
ghost use Rattle.layout.specs.Limits.{element_places, most_elements};
ghost use Rattle.mesh.specs.Accepted.{Cell};
ghost use Rattle.mesh.specs.Mesh.{first_cell};
ghost use Rattle.walk_steps.specs.Walking.{Within};
ghost use Rattle.walk_near_cells.specs.NearCells.{in_row, from_level, NearGround, LayerList, Spread, RowFits, LevelFits, Layered};

use layout::{get_or, put_at};
use walk_frontier::inner::index_at;
use walk_steps::inner::{Ends, widen};

// Gives y the layer k and lists it, unless it has a layer.
// Not `visit`: here any layer stops it, and there one mark alone.
fn reach_cell(k: u16, y: usize, layers: &mut [u16], found: &mut [u16], count: usize) -> usize
    requires { (k < 65535) × (1 ≤ y) × (y ≤ most_elements) × LayerList layers.old found.old count }
    ensures { Spread k layers.old found.old count layers.new found.new result (eqb y) }
{
    if get_or(layers, y, 0) != 0 {
        return count;
    }
    put_at(layers, y, k + 1);
    put_at(found, count, y as u16);
    count + 1
}

// Goes on to the cells that stand in `near` from place lo on and before hi, up to the first 0.
fn reach_row(
    near: &[u16],
    lo: usize,
    hi: usize,
    k: u16,
    layers: &mut [u16],
    found: &mut [u16],
    count: usize,
) -> usize
    requires { RowFits near.now lo hi × (k < 65535) × LayerList layers.old found.old count }
    ensures { Spread k layers.old found.old count layers.new found.new result (in_row near.now lo hi) }
{
    let mut s = count;
    for t in lo..hi {
        let y = index_at(near, t);
        if y < 1 {
            return s;
        }
        s = reach_cell(k, y, layers, found, s);
    }
    s
}

// Goes on from the cells in `found` from place old on and before `count` to the cells of their rows, each w places wide, which get the layer k.
// What a turn meets is added to `found` behind this stretch, so it cannot be lent as a slice meanwhile.
fn reach_level(
    w: usize,
    first: usize,
    k: u16,
    old: usize,
    count: usize,
    layers: &mut [u16],
    found: &mut [u16],
    near: &[u16],
) -> usize
    requires { LevelFits near.now w first found.old old count × (k < 65535) × LayerList layers.old found.old count }
    ensures { Spread k layers.old found.old count layers.new found.new result
        (from_level near.now w first found.old old count) }
{
    let mut s = count;
    for i in old..count {
        let lo = (index_at(found, i) - first) * w;
        s = reach_row(near, lo, lo + w, k, layers, found, s);
    }
    s
}

// The walks of all steps from cell c, by the rows of near cells, each w places wide: each cell met bears its layer, and the bounds hold all cells met.
pub fn walk_near(
    m: &[u8],
    stencil: &[u8],
    w: usize,
    first: usize,
    c: usize,
    layers: &mut [u16],
    found: &mut [u16],
    near: &[u16],
) -> Ends
    requires { NearGround m.now stencil.now near.now w × (first ≡ first_cell m.now) × Cell m.now c
        × Zeros element_places layers.old × (length found.old ≡ element_places) }
    ensures { Layered m.now stencil.now (c ∷ []) (length stencil.now - 1) layers.new × Within m.now layers.new result.low result.high
        × (length found.new ≡ element_places) }
{
    let mut old = 0;
    let mut met = reach_cell(0, c, layers, found, 0);
    for j in 0..stencil.len() / 2 {
        let s = reach_level(w, first, (2 * j + 2) as u16, old, met, layers, found, near);
        old = met;
        met = s;
    }
    widen(
        &found[..met],
        Ends {
            count: met,
            low: c,
            high: c + 1,
            met,
        },
    )
}
