// The reaches of all cells as a table.
ghost use Rattle.std.specs.Prelude.{◌≡◌, true, false, [], ◌∷◌, ◌+◌, ◌-◌, ◌*◌, ◌/◌, ◌<◌, ◌≤◌, length, get_or, set, MatchOption};
ghost use Rattle.vocabulary.specs.Bytes.{over};
ghost use Rattle.vocabulary.specs.Lists.{Zeros};
ghost use Rattle.vocabulary.specs.Intervals.{blocks};
ghost use Rattle.layout.specs.Words.{bytes_of, word_at};
ghost use Rattle.layout.specs.Limits.{element_places, most_reached, record_places};
ghost use Rattle.walk_reach_table.specs.Tables.{row, Cleared, Emitted, reach_entries, Tabled};
ghost use Rattle.walk_steps.specs.Walking.{Grounded};
ghost use Rattle.walk_near_cells.specs.NearCells.{WalksReady};
ghost use Rattle.mesh.specs.Meet.{Under};
ghost use Rattle.mesh.specs.Mesh.{top};
ghost use Rattle.mesh.specs.Walks.{bad10, bad13};
ghost use Rattle.mesh.specs.Accepted.{Accepted, Cell};

use layout::inner::put_word;
use layout::limits::{ELEMENT_PLACES, MOST_ELEMENTS, MOST_REACHED, RECORD_PLACES, TABLE_BYTES};
use layout::{get_or, put_at, word_at};
use walk_frontier::inner::index_at;
use walk_incidence::inner::{IncidenceRef, turn};
use walk_near_cells::inner::{near_rows, walk_near};
use walk_steps::inner::{Space, Walker};

// The first mark above those that the rows of near cells take: two a cell.
const AFTER_ROWS: usize = 2 * MOST_ELEMENTS + 1;

// For each cell in rising order the table has the cells of its reach, rising: an entry of two words for each, its place from 0 and its layer. `ends` has
// how many entries there are up to each cell.
#[derive(Drop)]
pub struct ReachTable {
    pub entries: [u8; TABLE_BYTES],
    pub ends: [u16; ELEMENT_PLACES],
}

impl ReachTable {
    // How many entries come before those of the cell at place q,
    pub fn start(&self, q: usize) -> usize
        ensures { (result ≡ get_or self.now.ends q 0) × (result < 65536) }
    {
        usize::from(get_or(&self.ends, q, 0))
    }

    // and how many up to the last of them.
    pub fn end(&self, q: usize) -> usize
        requires { q < 65536 }
        ensures { (result ≡ get_or self.now.ends (q + 1) 0) × (result < 65536) }
    {
        self.start(q + 1)
    }

    // The place of the cell of entry t,
    pub fn place(&self, t: usize) -> usize
        requires { t < 65536 }
        ensures { (result ≡ word_at self.now.entries (2 * t)) × (result < 65536) }
    {
        word_at(&self.entries, 2 * t)
    }

    // and its layer.
    pub fn layer(&self, t: usize) -> usize
        requires { t < 65536 }
        ensures { (result ≡ word_at self.now.entries (2 * t + 1)) × (result < 65536) }
    {
        word_at(&self.entries, 2 * t + 1)
    }
}

// Writes entry t.
fn put_entry(entries: &mut [u8; TABLE_BYTES], t: usize, place: usize, layer: usize)
    requires { (t < most_reached) × (place < 65536) × (layer < 65536) }
    ensures { entries.new ≡ over entries.old (4 * t) (bytes_of (place ∷ layer ∷ [])) }
{
    put_word(entries, 4 * t, place);
    put_word(entries, 4 * t + 2, layer);
}

// The entry at place q, if that cell has a layer, which is cleared. Gives how many entries there are then, and None where there is no room.
fn emit_one(
    layers: &mut [u16],
    first: usize,
    q: usize,
    entries: &mut [u8; TABLE_BYTES],
    t: usize,
) -> Option<usize>
    requires { (first < 65536) × (q < 65536) × (t ≤ most_reached) }
    ensures { MatchOption result (most_reached < t + length (row layers.old first q) / 2) (Emitted entries.old entries.new t (row layers.old first q))
        × (layers.new ≡ set layers.old (first + q) 0) }
{
    let x = index_at(layers, first + q);
    put_at(layers, first + q, 0);
    if x == 0 {
        return Some(t);
    }
    if MOST_REACHED <= t {
        return None;
    }
    put_entry(entries, t, q, x - 1);
    Some(t + 1)
}

// The entries of a cell's reach, from the layers of the cells from `low` up to but without `high`, which are cleared.
// No heap: the entries go into a lent table, and the result says how many.
fn emit(
    layers: &mut [u16],
    first: usize,
    low: usize,
    high: usize,
    entries: &mut [u8; TABLE_BYTES],
    t: usize,
) -> Option<usize>
    requires { (first ≤ low) × (high ≤ element_places) × (length layers.old ≡ element_places) × (t ≤ most_reached) }
    ensures { MatchOption result (most_reached < t + length (blocks (low - first) (high - low) (row layers.old first)) / 2)
        (λ u. Emitted entries.old entries.new t (blocks (low - first) (high - low) (row layers.old first)) u × Cleared low high layers.old layers.new) }
{
    let mut s = t;
    for x in low..high {
        s = emit_one(layers, first, x - first, entries, s)?;
    }
    Some(s)
}

// The entries of the reach of cell c: by the rows of near cells where they are listed, and else step by step. The layers stand in `from` or in `layers`,
// whichever the walk leaves free.
fn reach_of(
    walker: Walker,
    rows: Option<usize>,
    c: usize,
    mark: usize,
    space: &mut Space,
    entries: &mut [u8; TABLE_BYTES],
    t: usize,
) -> Option<usize>
    requires { Grounded walker × Cell walker.mesh.now c × WalksReady walker.mesh.now walker.stencil.now rows mark space.old × (mark ≤ 60000)
        × (t ≤ most_reached) }
    ensures { MatchOption result (most_reached < t + length (reach_entries walker.entry.mesh.now walker.entry.stencil.now c) / 2)
        (λ u. Emitted entries.old entries.new t (reach_entries walker.entry.mesh.now walker.entry.stencil.now c) u
        × WalksReady walker.entry.mesh.now walker.entry.stencil.now rows (mark + length walker.entry.stencil.now) space.new) }
{
    let first = walker.sizes.first;
    match rows {
        Some(w) => {
            let b = walk_near(
                walker.mesh,
                walker.stencil,
                w,
                first,
                c,
                &mut space.from,
                &mut space.found,
                &space.layers,
            );
            emit(&mut space.from, first, b.low, b.high, entries, t)
        }
        None => {
            space.from[0] = c as u16;
            let b = walker.walk(1, walker.stencil.len() - 1, mark, space);
            emit(&mut space.layers, first, b.low, b.high, entries, t)
        }
    }
}

// The reaches of all cells under an accepted stencil: how many entries they have, and None where those are too many for the table.
pub fn reach_all(walker: Walker, space: &mut Space, reaches: &mut ReachTable) -> Option<usize>
    requires { Grounded walker × Under 1 space.old.marks × Zeros element_places space.old.layers }
    ensures { MatchOption result (bad13 walker.entry.mesh.now walker.entry.stencil.now ≡ true)
        (λ t. Tabled walker.entry.mesh.now walker.entry.stencil.now reaches.old.entries reaches.new.entries reaches.new.ends t × (length space.new.marks ≡ element_places)) }
{
    let rows = near_rows(walker, space);
    let mut t = 0;
    let mut mark = AFTER_ROWS;
    reaches.ends[0] = 0;
    for q in 0..walker.sizes.cells {
        t = reach_of(
            walker,
            rows,
            walker.sizes.first + q,
            mark,
            space,
            &mut reaches.entries,
            t,
        )?;
        mark += walker.stencil.len();
        reaches.ends[q + 1] = t as u16;
    }
    Some(t)
}

// The same for a mesh whose chains are not turned round yet. `cell` is work space.
pub fn reach_table(
    m: &[u8],
    stencil: &[u8],
    cell: &mut [u16],
    reaches: &mut ReachTable,
) -> Option<usize>
    requires { Accepted m.now × (bad10 (top m.now) stencil.now ≡ false) × (length cell.old ≡ record_places) }
    ensures { MatchOption result (bad13 m.now stencil.now ≡ true) (Tabled m.now stencil.now reaches.old.entries reaches.new.entries reaches.new.ends) }
{
    let mut prev = [0; RECORD_PLACES];
    let mut last = [0; ELEMENT_PLACES];
    turn(m, cell, &mut prev, &mut last);
    let incidence = IncidenceRef {
        cell,
        prev: &prev,
        last: &last,
    };
    let mut space = Space {
        marks: [0; ELEMENT_PLACES],
        from: [0; ELEMENT_PLACES],
        found: [0; ELEMENT_PLACES],
        layers: [0; ELEMENT_PLACES],
    };
    reach_all(Walker::new(m, stencil, incidence), &mut space, reaches)
}
