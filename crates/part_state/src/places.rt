// Where things stand in a state. docs/LAYOUTS.md has it as a table, specs/State as definitions.
ghost use Rattle.std.specs.Prelude.{◌≡◌};
ghost use Rattle.part_state.specs.Checks.{Small, Counts, reach_start, entry_start, export_start, point_start, point_end_start, point_cell_start, word_count};

use layout::word_at;

// In the lists, words: how many they are, the part's number, the steps of the stencil, the rule's kind and its weights, the mesh's first cell and its
// count of cells.
pub const LENGTH: usize = 0;

pub const PART: usize = 1;

pub const STEPS: usize = 2;

pub const KIND: usize = 3;

pub const WEIGHT_WORDS: usize = 4;

pub const FIRST: usize = 9;

pub const CELLS: usize = 10;

// The byte at which the rule's weights begin.
pub const WEIGHTS: usize = 2 * WEIGHT_WORDS;

// The ends of the imports, for parts 0 to 16: the first is the count of owned cells, the last that of held ones.
pub const OWNED: usize = 11;

pub const HELD: usize = 27;

// The ends of the exports, for parts 0 to 16: the last is the count of all.
pub const EXPORT_ENDS: usize = 28;

pub const EXPORTED: usize = 44;

// With j added, the end before part j's imports, or exports; the next word is theirs.
pub const BEFORE_IMPORTS: usize = 10;

pub const BEFORE_EXPORTS: usize = 27;

// With l added, the cell of local number l. What stands behind the held cells has its place by the counts: `Sizes`.
pub const GLOBALS: usize = 44;

const REACH_ENDS: usize = 45;

const ENTRIES: usize = 46;

// After the lists, bytes: with j added, the flags of part j; all depths; with 4 * l added, that of local cell l.
pub const TAKEN: usize = 1;

pub const WRITTEN: usize = 17;

pub const DEPTHS: usize = 34;

pub const DEPTH: usize = 30;

// How many cells a state holds and owns, how many entries its reaches and its exports have, and how many points it gives, with how many cells at them. They
// are passed beside the lists, and not in one struct with them: start has the counts before it has the lists.
#[derive(Clone, Copy, Debug, PartialEq, Eq)]
pub struct Sizes {
    pub held: usize,
    pub owned: usize,
    pub reached: usize,
    pub sent: usize,
    pub points: usize,
    pub around: usize,
}

impl Sizes {
    // The word at which the ends of the reaches begin.
    pub fn reach_word(self) -> usize
        requires { Small self }
        ensures { result ≡ reach_start self }
    {
        REACH_ENDS + self.held
    }

    // The word at which the entries of the reaches begin.
    pub fn entry_word(self) -> usize
        requires { Small self }
        ensures { result ≡ entry_start self }
    {
        ENTRIES + self.held + self.owned
    }

    // The word at which the exports begin.
    pub fn exports_word(self) -> usize
        requires { Small self }
        ensures { result ≡ export_start self }
    {
        self.entry_word() + 2 * self.reached
    }

    // The word that has how many points there are; with k added, the number of the k-th.
    pub fn points_word(self) -> usize
        requires { Small self }
        ensures { result ≡ point_start self }
    {
        self.exports_word() + self.sent
    }

    // The word at which the ends of the cells at the points begin.
    pub fn point_ends_word(self) -> usize
        requires { Small self }
        ensures { result ≡ point_end_start self }
    {
        self.points_word() + 1 + self.points
    }

    // The word at which these cells begin.
    pub fn point_cells_word(self) -> usize
        requires { Small self }
        ensures { result ≡ point_cell_start self }
    {
        self.points_word() + 2 + 2 * self.points
    }

    // How many words the lists have.
    pub fn words(self) -> usize
        requires { Small self }
        ensures { result ≡ word_count self }
    {
        self.point_cells_word() + self.around
    }
}

// The counts that stand in the lists.
pub fn sizes_of(lists: &[u8]) -> Sizes
    ensures { Counts lists.now result }
{
    let owned = word_at(lists, OWNED);
    let held = word_at(lists, HELD);
    let reached = word_at(lists, REACH_ENDS + held + owned);
    let sent = word_at(lists, EXPORTED);
    let at = ENTRIES + held + owned + 2 * reached + sent;
    let points = word_at(lists, at);
    let around = word_at(lists, at + 1 + points + points);
    Sizes {
        held,
        owned,
        reached,
        sent,
        points,
        around,
    }
}
