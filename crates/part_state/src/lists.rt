// Whether the lists of a state are as its form asks. `lists` are the bytes before what calls change.
ghost use Rattle.std.specs.Prelude.{◌≡◌, true, not, ◌&&◌, ◌+◌, ◌-◌, ◌*◌, ◌<◌, ◌≤◌, leb, length, take, drop};
ghost use Rattle.vocabulary.specs.Intervals.{is_up_to, every, some};
ghost use Rattle.vocabulary.specs.Tests.{all_of};
ghost use Rattle.layout.specs.Words.{word_at};
ghost use Rattle.layout.specs.Limits.{most_steps};
ghost use Rattle.round_rule.specs.Rules.{weight_count, bad11};
ghost use Rattle.round_rule.specs.Kinds.{kind_number};
ghost use Rattle.part_state.specs.State.{weights_place, export_count, point_cells, global_at, valid_global, valid_entry, valid_export, valid_point_cell, lists_tests, reach_word};
ghost use Rattle.part_state.specs.Checks.{Fitting, Tested, rise_at, own_entry, within_at, valid_row, header_tests, end_tests, entry_tests, point_tests};

use crate::places::{
    CELLS, EXPORT_ENDS, FIRST, GLOBALS, HELD, KIND, OWNED, PART, STEPS, Sizes, WEIGHTS,
};
use cell_numbers::inner::is_cell;
use cell_numbers::{Global, Local};
use layout::inner::word_in;
use layout::limits::{MOST_ELEMENTS, MOST_PARTS, MOST_STEPS};
use layout::word_at;
use round_rule::{Kind, bad_weights};

// Whether x is a number from 1 to n.
#[tactic(auto, unfolding(vocabulary::specs::Intervals::is_up_to))]
pub fn up_to(n: usize, x: usize) -> bool
    ensures { result ≡ is_up_to n x }
{
    (1..=n).contains(&x)
}

// The word of index i, which is there.
fn word_there(lists: &[u8], i: usize) -> usize
    requires { 2 * i + 1 < length lists.now }
    ensures { (result ≡ word_at lists.now i) × (result < 65536) }
{
    word_in(lists, 2 * i)
}

// How many entries belong to a number, by the ends at words k and k + 1.
pub fn count_between(lists: &[u8], k: usize) -> usize
    requires { k < 1000000 }
    ensures { (result ≡ word_at lists.now (k + 1) - word_at lists.now k) × (result < 65536) }
{
    word_at(lists, k + 1).saturating_sub(word_at(lists, k))
}

// The cell of a local number, through the list of the held cells.
pub fn global_of(lists: &[u8], l: Local) -> Global
    ensures { result.0 ≡ global_at lists.now l.0 }
{
    Global(word_at(lists, GLOBALS + l.0 as usize) as u16)
}

// Whether each of the n + 1 ends from word a on is at least `BY` more than the one before it: with 0 they never fall, with 1 they climb. A loop, and not
// `all`, so that each word is read once.
fn ends_rise<const BY: usize>(lists: &[u8], a: usize, n: usize) -> bool
    requires { (2 * (a + n) + 1 < length lists.now) × (BY ≤ 1) }
    ensures { result ≡ every 0 n (rise_at lists.now a BY) }
{
    let mut end = word_there(lists, a);
    for j in 0..n {
        let next = word_there(lists, a + (j + 1));
        if next < end + BY {
            return false;
        }
        end = next;
    }
    true
}

// Whether the held cells are the mesh's.
fn valid_globals(lists: &[u8], held: usize) -> bool
    requires { (2 * (reach_word held) ≤ length lists.now) × (held < 65536) }
    ensures { result ≡ every 1 held (valid_global lists.now) }
{
    let first = word_there(lists, FIRST);
    let cells = word_there(lists, CELLS);
    (1..1 + held).all(|l| is_cell(Global(word_there(lists, GLOBALS + l) as u16), first, cells))
}

// The entries of the reaches: the word at which they begin, and what they are tested by.
#[derive(Clone, Copy)]
struct Entries<'a> {
    lists: &'a [u8],
    at: usize,
    held: usize,
    steps: usize,
    ghost tested: { Tested lists.now at held steps },
}

impl<'a> Entries<'a> {
    // Whether entry t is a held cell, at an even layer of at most `steps`.
    fn is_valid(self, t: usize) -> bool
        requires { 2 * (self.at + 2 * t) + 3 < length self.lists.now }
        ensures { result ≡ valid_entry self.entry.lists.now t }
    {
        let layer = word_there(self.lists, self.at + 2 * t + 1);
        up_to(self.held, word_there(self.lists, self.at + 2 * t))
            && layer % 2 == 0
            && layer <= self.steps
    }

    // Whether entry t is that of cell l itself.
    #[tactic(auto, unfolding(crate::specs::Checks::own_entry))]
    fn is_own(self, l: usize, t: usize) -> bool
        requires { 2 * (self.at + 2 * t) + 3 < length self.lists.now }
        ensures { result ≡ own_entry self.entry.lists.now l t }
    {
        word_there(self.lists, self.at + 2 * t) == l
            && word_there(self.lists, self.at + 2 * t + 1) == 0
    }

    // Whether the entries from `from` up to `to` are valid, and that of cell l itself is among them. Where it is found, only the entries after it are left to
    // test: so each entry is read once, and this is a loop and not `all` and `any`.
    fn are_row(self, l: usize, from: usize, to: usize) -> bool
        requires { (from ≤ to) × (2 * (self.at + 2 * to) ≤ length self.lists.now) }
        ensures { result ≡ every from (to - from) (valid_entry self.entry.lists.now) && some from (to - from) (own_entry self.entry.lists.now l) }
    {
        for t in from..to {
            if !self.is_valid(t) {
                return false;
            }
            if self.is_own(l, t) {
                return (t + 1..to).all(|u| self.is_valid(u));
            }
        }
        false
    }
}

// The end at word i, which is no less than `from`. It is given as the greater of the two: so a loop that runs to it took fewer instructions than with the
// word as it is read.
fn end_there(lists: &[u8], i: usize, from: usize) -> usize
    requires { (2 * i + 1 < length lists.now) × (from ≤ word_at lists.now i) }
    ensures { (result ≡ word_at lists.now i) × (result < 65536) }
{
    word_there(lists, i).max(from)
}

// The reaches of the owned cells, row by row. Their ends rise from 0 to the count of all, so the rows have all the entries. A loop, and not `all`, since each row
// begins where the one before it ends.
// Each end is read once, as in `ends_rise`: so a loop that keeps it, and not `all`.
fn valid_rows(lists: &[u8], sizes: Sizes) -> bool
    requires { Fitting lists.now sizes × (all_of (end_tests lists.now) ≡ true) }
    ensures { result ≡ every 1 sizes.owned (valid_row lists.now) }
{
    let ends = sizes.reach_word();
    let entries = Entries {
        lists,
        at: sizes.entry_word(),
        held: sizes.held,
        steps: word_there(lists, STEPS),
    };
    let mut from = 0;
    for l in 1..1 + sizes.owned {
        let to = end_there(lists, ends + l, from);
        if !entries.are_row(l, from, to) {
            return false;
        }
        from = to;
    }
    true
}

// Whether the exported cells are owned.
fn valid_exports(lists: &[u8], sizes: Sizes) -> bool
    requires { Fitting lists.now sizes }
    ensures { result ≡ every 0 (export_count lists.now) (valid_export lists.now) }
{
    let at = sizes.exports_word();
    (0..sizes.sent).all(|t| up_to(sizes.owned, word_there(lists, at + t)))
}

// Whether the four words from word i on are at most n.
fn four_within(lists: &[u8], n: usize, i: usize) -> bool
    requires { 2 * (i + 3) + 1 < length lists.now }
    ensures { result ≡ within_at lists.now n i && within_at lists.now n (i + 1) && within_at lists.now n (i + 2) && within_at lists.now n (i + 3) }
{
    word_there(lists, i) <= n
        && word_there(lists, i + 1) <= n
        && word_there(lists, i + 2) <= n
        && word_there(lists, i + 3) <= n
}

// Whether the cells at the points are held, but for those that are not to be read. A state can have many, so they are tested four at a time, which takes fewer
// instructions a cell, and then the up to three that are left.
fn valid_point_cells(lists: &[u8], sizes: Sizes) -> bool
    requires { Fitting lists.now sizes }
    ensures { result ≡ every 0 (point_cells lists.now) (valid_point_cell lists.now) }
{
    let at = sizes.point_cells_word();
    let fours = sizes.around / 4;
    (0..fours).all(|k| four_within(lists, sizes.held, at + 4 * k))
        && (4 * fours..sizes.around).all(|t| word_there(lists, at + t) <= sizes.held)
}

// How many weights a rule of this kind has under a stencil of `steps` steps.
pub fn weight_count(kind: Kind, steps: usize) -> usize
    requires { steps ≤ most_steps }
    ensures { (result ≡ weight_count (kind_number kind) steps) × (result ≤ 5) }
{
    match kind {
        Kind::Hold => 0,
        Kind::Mean => steps / 2 + 1,
        Kind::Shoalest => 0,
    }
}

// Whether the rule in the lists is one.
fn valid_rule(lists: &[u8], kind: usize, steps: usize) -> bool
    requires { (weights_place + 10 ≤ length lists.now) × (steps ≤ most_steps) × (kind < 65536) }
    ensures { result ≡ not (bad11 kind steps (take (2 * weight_count kind steps) (drop weights_place lists.now))) }
{
    match Kind::try_from(kind as u32) {
        Ok(k) => {
            let end = WEIGHTS + 2 * weight_count(k, steps);
            !bad_weights(k, steps, &lists[WEIGHTS..end])
        }
        Err(_) => false,
    }
}

// The part's number, the stencil's steps, the rule and the count of held cells.
#[tactic(auto, unfolding(crate::specs::State::weights))]
fn valid_header(lists: &[u8]) -> bool
    requires { weights_place + 10 ≤ length lists.now }
    ensures { result ≡ all_of (header_tests lists.now) }
{
    let steps = word_at(lists, STEPS);
    up_to(MOST_PARTS, word_at(lists, PART))
        && steps % 2 == 0
        && steps <= MOST_STEPS
        && valid_rule(lists, word_at(lists, KIND), steps)
        && word_at(lists, HELD) <= MOST_ELEMENTS
}

// The ends of the imports, the exports and the reaches.
fn valid_ends(lists: &[u8], sizes: Sizes) -> bool
    requires { Fitting lists.now sizes }
    ensures { result ≡ all_of (end_tests lists.now) }
{
    let ends = sizes.reach_word();
    ends_rise::<0>(lists, OWNED, MOST_PARTS)
        && word_there(lists, EXPORT_ENDS) == 0
        && ends_rise::<0>(lists, EXPORT_ENDS, MOST_PARTS)
        && word_there(lists, ends) == 0
        && ends_rise::<0>(lists, ends, sizes.owned)
}

// The held cells, the exports and the reaches.
fn valid_entries(lists: &[u8], sizes: Sizes) -> bool
    requires { Fitting lists.now sizes × (all_of (end_tests lists.now) ≡ true) }
    ensures { result ≡ all_of (entry_tests lists.now) }
{
    valid_globals(lists, sizes.held) && valid_exports(lists, sizes) && valid_rows(lists, sizes)
}

// The points: the ends of the cells at them, and these cells.
fn valid_points(lists: &[u8], sizes: Sizes) -> bool
    requires { Fitting lists.now sizes }
    ensures { result ≡ all_of (point_tests lists.now) }
{
    let ends = sizes.point_ends_word();
    word_there(lists, ends) == 0
        && ends_rise::<1>(lists, ends, sizes.points)
        && valid_point_cells(lists, sizes)
}

// Whether the lists pass all their tests. The reaches have the most entries and come last: so few numbers have to be kept beside their loop.
#[tactic(auto, using(crate::proofs::ListChecks::in_groups))]
pub fn valid_lists(lists: &[u8], sizes: Sizes) -> bool
    requires { Fitting lists.now sizes }
    ensures { result ≡ all_of (lists_tests lists.now) }
{
    valid_header(lists)
        && valid_ends(lists, sizes)
        && valid_points(lists, sizes)
        && valid_entries(lists, sizes)
}
