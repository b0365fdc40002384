// Advance: one round of the owned cells.
#![tactic(auto)]

ghost use Rattle.std.specs.Prelude.{◌≡◌, ◌++◌, ◌+◌, ◌*◌, ◌<◌, ◌≤◌, length, take, replicate};
ghost use Rattle.vocabulary.specs.Bytes.{over};
ghost use Rattle.layout.specs.Words.{word_bytes};
ghost use Rattle.layout.specs.Limits.{most_elements};
ghost use Rattle.layout.specs.Answers.{answer_of, refused_as};
ghost use Rattle.part_state.specs.State.{lists_in, state_length};
ghost use Rattle.part_state.specs.Checks.{Counts};
ghost use Rattle.part_calls.specs.Opened.{Opened, advance_rest};
ghost use Rattle.part_calls.specs.States.{lists_at, changes_at};
ghost use Rattle.part_calls.specs.Calls.{advanced_in, advance_answer, advance_state};

use layout::Refusal;
use layout::inner::{copy, put_word};
use layout::limits::{LAST_ROUND, MOST_ELEMENTS};
use part_calls::inner::{State, clear};
use part_state::inner::{DEPTHS, Sizes, sizes_of};
use part_update::inner::renew_by;

// The first of advance's tests after 20 that refuses.
fn test_state(s: State) -> Result<(), Refusal>
    ensures { refused_as result ≡ advance_rest (lists_at s.entry) (changes_at s.entry) s.entry.bytes.now }
{
    if !s.all_taken() {
        return Err(Refusal::NotTaken);
    }
    if !s.all_written() {
        return Err(Refusal::NotWritten);
    }
    if LAST_ROUND <= s.round() {
        return Err(Refusal::LastRound);
    }
    Ok(())
}

// Stores the round, no flag, and the first `owned` depths of `new`.
// Out of line: beside the array that `new` is in, the compiler would make a call of `memcpy` of the copy.
#[inline(never)]
fn put_round(b: &mut [u8], changes: usize, round: usize, owned: usize, new: &[u8])
    requires { (changes < 131072) × (round < 65536) × (owned < 65536) × (state_length changes owned ≤ length b.old) × (4 * owned ≤ length new.now) }
    ensures { b.new ≡ over b.old changes (word_bytes round ++ (replicate 32 0 ++ take (4 * owned) new.now)) }
{
    put_word(b, changes, round);
    clear(b, changes + 2, 32);
    copy(b, changes + DEPTHS, new, 0, 4 * owned);
}

// One round of the owned cells, whose new depths take at most `ROOM` bytes. The lists of the state end at `changes`.
fn next_round<const ROOM: usize>(b: &mut [u8], changes: usize, sizes: Sizes)
    requires { Opened (take changes b.old) changes b.old × Counts (take changes b.old) sizes × (4 * sizes.owned ≤ ROOM) × (ROOM ≤ 4 * most_elements) }
    ensures { b.new ≡ advanced_in (lists_in (take changes b.old)) changes b.old }
{
    let mut new = [0u8; ROOM];
    let s = State::known(b, changes);
    let round = s.round() + 1;
    renew_by(s, sizes, &mut new);
    put_round(b, changes, round, sizes.owned, &new);
}

// Where a part owns no more cells than these, the room for their new depths is small: to make it costs time at every call.
const FEW: usize = 128;

const FEW_ROOM: usize = 4 * FEW;

const MOST_ROOM: usize = 4 * MOST_ELEMENTS;

// Makes one round of the owned cells.
pub fn advance(b: &mut [u8]) -> Result<u32, Refusal>
    ensures { (answer_of result ≡ advance_answer b.old) × (b.new ≡ advance_state b.old) }
{
    let s = State::open(b)?;
    test_state(s)?;
    let sizes = sizes_of(s.lists);
    let changes = s.lists.len();
    if sizes.owned <= FEW {
        next_round::<FEW_ROOM>(b, changes, sizes);
    } else {
        next_round::<MOST_ROOM>(b, changes, sizes);
    }
    Ok(0)
}
