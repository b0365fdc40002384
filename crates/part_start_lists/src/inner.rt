// The lists of a part as the words of its state, from the owners, the table of the reaches with its ends, and the part's local order.
ghost use Rattle.std.specs.Prelude.{◌≡◌, [], ◌∷◌, ◌++◌, map, ◌+◌, ◌-◌, ◌*◌, ◌<◌, ◌≤◌, length, get_or, take, replicate};
ghost use Rattle.vocabulary.specs.Bytes.{over};
ghost use Rattle.vocabulary.specs.Intervals.{listed, blocks};
ghost use Rattle.layout.specs.Words.{word_at};
ghost use Rattle.layout.specs.Limits.{element_places, most_elements, most_parts, most_records};
ghost use Rattle.part_state.specs.State.{import_word, reach_word};
ghost use Rattle.word_lists.specs.Putting.{Put};
ghost use Rattle.part_start_lists.specs.Starting.{local_in, numbers_of, row_size, ends_by, Got, entry_words, row_ends, row_words, ReachRow, ReachRows, start_depth, FieldCells, TablesFit, Drawn};

use crate::counts::count_classes;
pub use crate::counts::count_exports;
pub use crate::exports::{find_sent, stamp_reach};
use cell_numbers::inner::{cell_at, index_of};
use cell_numbers::{Global, Local};
use layout::inner::copy;
use layout::limits::MOST_PARTS;
use layout::{get_or, word_at};
use part_state::inner::{CELLS, FIRST, KIND, LENGTH, PART, STEPS, Sizes, WEIGHT_WORDS};
use split::inner::{number_cells, to_global, to_local};
use split_cells::inner::add_order;
use split_classes::inner::{HALO, INTERIOR, classify};
use word_lists::inner::{put_list, put_one, put_words};

// Whose lists are made: the part, how many parts there are, the mesh's cells, how many points touch the part, and how many cells stand at these together.
#[derive(Clone, Copy)]
pub struct Asked {
    pub part: usize,
    pub parts: usize,
    pub first: usize,
    pub cells: usize,
    pub points: usize,
    pub around: usize,
}

// What its lists are made by: that, how many cells it holds, owns and exports, at which word its points begin, and how many words the lists have.
#[derive(Clone, Copy)]
pub struct Plan {
    pub asked: Asked,
    pub held: usize,
    pub owned: usize,
    pub sent: usize,
    pub front: usize,
    pub long: usize,
}

// Writes a local number.
fn put_local(b: &mut [u8], s: usize, l: Local) -> usize
    requires { (2 * (s + 1) ≤ length b.old) × (s < 1000000) }
    ensures { Put b.old b.new s result (l.0 ∷ []) }
{
    put_one(b, s, l.0 as usize)
}

// The index of local cell l among the mesh's cells.
fn place_at(order: &[u16], first: usize, l: Local) -> usize
    requires { (1 ≤ l.0) × (first ≤ get_or order.now (l.0 - 1) 0) }
    ensures { (result ≡ get_or order.now (l.0 - 1) 0 - first) × (result < 65536) }
{
    index_of(to_global(order, l), first)
}

// How many entries the reach of local cell l has.
fn row_size(table: &[u8], ends: &[u16], first: usize, order: &[u16], l: Local) -> usize
    requires { (1 ≤ l.0) × (first ≤ get_or order.now (l.0 - 1) 0) }
    ensures { (result ≡ row_size table.now ends.now first order.now l.0) × (result < 65536) }
{
    let q = place_at(order, first, l);
    let from = get_or(ends, q, 0) as usize;
    let to = get_or(ends, q + 1, 0) as usize;
    to.saturating_sub(from)
}

// How many entries the reaches of the owned cells have.
fn row_total(table: &[u8], ends: &[u16], first: usize, order: &[u16], owned: usize) -> usize
    requires { ReachRows table.now ends.now first order.now owned × (row_ends table.now ends.now first order.now owned < 65536) × (owned < 65535) }
    ensures { result ≡ row_ends table.now ends.now first order.now owned }
{
    let mut e = 0;
    for l in 0..owned {
        e += row_size(table, ends, first, order, Local((l + 1) as u16));
    }
    e
}

// Writes a table of 17 ends after `base`, by an array of counts.
// One for all that write running ends would take the sizes by a closure: no shorter than this loop.
fn put_ends(b: &mut [u8], s: usize, counts: &[u16], base: usize) -> usize
    requires { (2 * (s + most_parts + 1) ≤ length b.old) × (s < 65536) × (ends_by counts.now base most_parts < 65536) }
    ensures { Put b.old b.new s result (listed 0 (most_parts + 1) (ends_by counts.now base)) }
{
    let mut e = base;
    let mut t = s;
    for k in 0..MOST_PARTS {
        t = put_one(b, t, e);
        e += get_or(counts, k + 1, 0) as usize;
    }
    put_one(b, t, e)
}

// Writes the ends of the reaches.
// Beside `put_ends`: one for both would take the sizes by a closure, no shorter than this loop.
fn put_row_ends(
    b: &mut [u8],
    s: usize,
    table: &[u8],
    ends: &[u16],
    first: usize,
    order: &[u16],
    owned: usize,
) -> usize
    requires { (2 * (s + owned + 1) ≤ length b.old)
        × (s < 65536)
        × (owned < 65535)
        × ReachRows table.now ends.now first order.now owned
        × (row_ends table.now ends.now first order.now owned < 65536) }
    ensures { Put b.old b.new s result (listed 0 (owned + 1) (row_ends table.now ends.now first order.now)) }
{
    let mut e = 0;
    let mut t = s;
    for l in 0..owned {
        t = put_one(b, t, e);
        e += row_size(table, ends, first, order, Local((l + 1) as u16));
    }
    put_one(b, t, e)
}

// Writes entry t of the table in local numbers.
fn put_entry(b: &mut [u8], s: usize, table: &[u8], first: usize, local: &[u16], t: usize) -> usize
    requires { (2 * (s + 2) ≤ length b.old) × (s < 500000) × (t < 65536) × (first + word_at table.now (2 * t) < 65536) }
    ensures { Put b.old b.new s result (entry_words table.now first local.now t) }
{
    let c = cell_at(first, word_at(table, 2 * t));
    let u = put_local(b, s, to_local(local, c));
    put_one(b, u, word_at(table, 2 * t + 1))
}

// Writes the entries of the reach of local cell l.
fn put_row(
    b: &mut [u8],
    s: usize,
    table: &[u8],
    ends: &[u16],
    first: usize,
    order: &[u16],
    local: &[u16],
    l: Local,
) -> usize
    requires { (2 * (s + 2 * row_size table.now ends.now first order.now l.0) ≤ length b.old) × (s < 65536) × (1 ≤ l.0)
        × ReachRow table.now ends.now first order.now l.0 }
    ensures { Put b.old b.new s result (row_words table.now ends.now first order.now local.now l.0) }
{
    let q = place_at(order, first, l);
    let from = get_or(ends, q, 0) as usize;
    let to = get_or(ends, q + 1, 0) as usize;
    let mut u = s;
    for t in from..to {
        u = put_entry(b, u, table, first, local, t);
    }
    u
}

// Writes the reaches of the owned cells in local numbers.
fn put_rows(
    b: &mut [u8],
    s: usize,
    table: &[u8],
    ends: &[u16],
    first: usize,
    order: &[u16],
    local: &[u16],
    owned: usize,
) -> usize
    requires { (2 * (s + 2 * row_ends table.now ends.now first order.now owned) ≤ length b.old)
        × (s + 2 * row_ends table.now ends.now first order.now owned < 65536)
        × (owned < 65535)
        × ReachRows table.now ends.now first order.now owned }
    ensures { Put b.old b.new s result (blocks 1 owned (row_words table.now ends.now first order.now local.now)) }
{
    let mut u = s;
    for l in 1..owned + 1 {
        u = put_row(b, u, table, ends, first, order, local, Local(l as u16));
    }
    u
}

// Writes the first n cells of a list in local numbers.
// Beside `put_list`: one for both would take the words by an iterator, as is said at `put_words`.
fn put_locals(b: &mut [u8], s: usize, list: &[u16], n: usize, local: &[u16]) -> usize
    requires { (2 * (s + n) ≤ length b.old) × (s < 65536) × (n ≤ length list.now) × (n ≤ 65536) }
    ensures { Put b.old b.new s result (map (local_in local.now) (take n list.now)) }
{
    let mut t = s;
    for k in 0..n {
        let c = Global(get_or(list, k, 0));
        t = put_local(b, t, to_local(local, c));
    }
    t
}

// Writes what stands before the tables: the length of the lists, the part, the stencil's steps, the rule, and the mesh's cells.
fn put_header(b: &mut [u8], plan: Plan, steps: usize, kind: usize, weights: &[u8]) -> usize
    requires { (2 * import_word ≤ length b.old) × (plan.long < 65536) × (plan.asked.part < 65536) × (steps < 65536) × (kind < 65536)
        × (plan.asked.first < 65536) × (plan.asked.cells < 65536) }
    ensures { Put b.old b.new 0 result ((plan.long ∷ plan.asked.part ∷ steps ∷ kind ∷ []) ++ (listed 0 5 (word_at weights.now) ++
        (plan.asked.first ∷ plan.asked.cells ∷ []))) }
{
    put_one(b, LENGTH, plan.long);
    put_one(b, PART, plan.asked.part);
    put_one(b, STEPS, steps);
    put_one(b, KIND, kind);
    put_words(b, WEIGHT_WORDS, weights, 5);
    put_one(b, FIRST, plan.asked.first);
    put_one(b, CELLS, plan.asked.cells)
}

// Writes the tables of the imports' and exports' ends.
fn put_borders(b: &mut [u8], s: usize, owned: usize, got: &[u16], sent: &[u16]) -> usize
    requires { (2 * (s + 2 * (most_parts + 1)) ≤ length b.old) × (s < 60000) × (ends_by got.now owned most_parts < 65536) × (ends_by sent.now 0 most_parts < 65536) }
    ensures { Put b.old b.new s result (listed 0 (most_parts + 1) (ends_by got.now owned) ++ listed 0 (most_parts + 1) (ends_by sent.now 0)) }
{
    let t = put_ends(b, s, got, owned);
    put_ends(b, t, sent, 0)
}

// Writes what stands before the local order.
pub fn put_front(
    b: &mut [u8],
    plan: Plan,
    steps: usize,
    kind: usize,
    weights: &[u8],
    got: &[u16],
    sent: &[u16],
) -> usize
    requires { (2 * reach_word 0 ≤ length b.old)
        × (plan.long < 65536)
        × (plan.asked.part < 65536)
        × (steps < 65536)
        × (kind < 65536)
        × (plan.asked.first < 65536)
        × (plan.asked.cells < 65536)
        × (ends_by got.now plan.owned most_parts < 65536)
        × (ends_by sent.now 0 most_parts < 65536) }
    ensures { Put b.old b.new 0 result (((plan.long ∷ plan.asked.part ∷ steps ∷ kind ∷ []) ++ (listed 0 5 (word_at weights.now)
        ++ (plan.asked.first ∷ plan.asked.cells ∷ []))) ++ (listed 0 (most_parts + 1) (ends_by got.now plan.owned) ++ listed 0 (most_parts + 1) (ends_by sent.now 0))) }
{
    let s = put_header(b, plan, steps, kind, weights);
    put_borders(b, s, plan.owned, got, sent)
}

// Writes the local order, the reaches with their ends, and the exports, which are listed one part after another. Table and ends are slices of any
// length, as in `find_sent`.
pub fn put_entries(
    b: &mut [u8],
    s: usize,
    table: &[u8],
    ends: &[u16],
    plan: Plan,
    order: &[u16],
    local: &[u16],
    list: &[u16],
) -> usize
    requires { (2 * (s + plan.held + plan.owned + 1 + 2 * row_ends table.now ends.now plan.asked.first order.now plan.owned + plan.sent) ≤ length b.old)
        × (s + plan.held + plan.owned + 1 + 2 * row_ends table.now ends.now plan.asked.first order.now plan.owned + plan.sent < 65536)
        × (plan.held ≤ length order.now)
        × ReachRows table.now ends.now plan.asked.first order.now plan.owned
        × (plan.sent ≤ length list.now) }
    ensures { Put b.old b.new s result (take plan.held order.now ++ (listed 0 (plan.owned + 1) (row_ends table.now
        ends.now plan.asked.first order.now) ++ (blocks 1 plan.owned (row_words table.now ends.now plan.asked.first
        order.now local.now) ++ map (local_in local.now) (take plan.sent list.now)))) }
{
    let t = put_list(b, s, &order[..plan.held]);
    let u = put_row_ends(b, t, table, ends, plan.asked.first, order, plan.owned);
    let w = put_rows(
        b,
        u,
        table,
        ends,
        plan.asked.first,
        order,
        local,
        plan.owned,
    );
    put_locals(b, w, list, plan.sent, local)
}

// The local order of the part, and what comes of it and of how many cells it exports, with the counts of its imports in a cleared array. The row is work
// space. Table and ends are slices of any length, as in `find_sent`.
pub fn make_plan(
    asked: Asked,
    sent: usize,
    owners: &[u8],
    table: &[u8],
    ends: &[u16],
    class: &mut [u8],
    order: &mut [u16],
    got: &mut [u16],
) -> Plan
    requires { TablesFit owners.now table.now ends.now asked.part asked.first asked.cells asked.parts
        × (sent ≤ 512000)
        × (asked.points ≤ most_elements)
        × (asked.around ≤ most_records)
        × (length class.old ≡ most_elements)
        × (most_elements ≤ length order.old)
        × (got.old ≡ replicate 19 0) }
    ensures { (result.asked ≡ asked)
        × (result.sent ≡ sent)
        × Drawn owners.now table.now ends.now result.asked.part result.asked.first result.asked.cells result.asked.parts order.new result.held
        result.owned result.sent asked.points asked.around result.front result.long
        × Got owners.now table.now ends.now result.asked.part result.asked.cells got.new }
{
    classify(owners, table, ends, asked.cells, asked.part, class);
    let held = add_order(class, asked.first, asked.cells, asked.parts, order);
    count_classes(class, asked.cells, got);
    let inner = get_or(got, INTERIOR as usize, 0) as usize;
    let owned = inner + get_or(got, HALO as usize, 0) as usize;
    let sizes = Sizes {
        held,
        owned,
        reached: row_total(table, ends, asked.first, order, owned),
        sent,
        points: asked.points,
        around: asked.around,
    };
    Plan {
        asked,
        held,
        owned,
        sent,
        front: sizes.points_word(),
        long: sizes.words(),
    }
}

// The local numbers of the first n cells of the order, in an array of numbers.
pub fn number_order(order: &[u16], n: usize, local: &mut [u16])
    requires { (n ≤ length order.now) × (n < 65536) × (length local.old ≡ element_places) }
    ensures { local.new ≡ numbers_of order.now n }
{
    local.fill(0);
    number_cells(order, n, local);
}

// Copies the depths of the held cells out of a field.
// A loop over the numbers themselves: l tells the cell in the order and the place of its depth.
pub fn put_cells(b: &mut [u8], at: usize, f: &[u8], first: usize, order: &[u16], n: usize)
    requires { (at + 4 * n ≤ length b.old) × (at < 1000000) × (n < 65535) × FieldCells f.now first order.now n }
    ensures { b.new ≡ over b.old at (blocks 1 n (start_depth f.now first order.now)) }
{
    for l in 1..n + 1 {
        let q = place_at(order, first, Local(l as u16));
        copy(b, at + 4 * (l - 1), f, 4 * q, 4);
    }
}
