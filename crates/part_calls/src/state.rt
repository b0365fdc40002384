// A state that a call has opened.
ghost use Rattle.std.specs.Prelude.{◌≡◌, ◌+◌, ◌<◌, ◌≤◌, true, length, take, IfOk, IfErr};
ghost use Rattle.vocabulary.specs.Bytes.{over};
ghost use Rattle.part_calls.specs.Opened.{Opened};

use crate::settled::{all_taken, all_written};
use layout::inner::{copy, word_in};
use layout::{Refusal, word_at};
use part_state::inner::{DEPTH, LENGTH};
use part_state::is_state;

// A state, to be read: its lists, and all its bytes. What calls change begins where the lists end. What writes into a state takes its bytes and that place,
// since it cannot borrow the lists from the bytes that it changes. The counts are beside it (`Sizes`): not every call reads them.
#[derive(Clone, Copy)]
pub struct State<'a> {
    pub lists: &'a [u8],
    pub bytes: &'a [u8],
    pub ghost opened: { Opened lists.now (length lists.now) bytes.now },
}

impl<'a> State<'a> {
    ghost use Rattle.layout.specs.Answers.{refusal_number};
    ghost use Rattle.part_state.specs.State.{bad20, round_at, held_count};
    ghost use Rattle.part_calls.specs.Calls.{depth_at, all_taken, all_written};
    ghost use Rattle.part_calls.specs.States.{lists_at, changes_at};

    // Opens a state, or refuses it.
    pub fn open(b: &'a [u8]) -> Result<State<'a>, Refusal>
        ensures opened { IfOk result (λ s. s.bytes.now ≡ b.now) }
        ensures refused { IfErr result (λ e. (refusal_number e ≡ 20) × (bad20 b.now ≡ true)) }
    {
        if !is_state(b) {
            return Err(Refusal::State);
        }
        let changes = 2 * word_at(b, LENGTH);
        Ok(State::known(b, changes))
    }

    // A state whose lists end at `changes`, for a caller that knows it to be one.
    pub fn known(b: &'a [u8], changes: usize) -> State<'a>
        requires { Opened (take changes b.now) changes b.now }
        ensures { (result.lists.now ≡ take changes b.now) × (result.bytes.now ≡ b.now) }
    {
        State {
            lists: &b[..changes],
            bytes: b,
        }
    }

    // The round that the state is at.
    pub fn round(self) -> usize
        ensures { (result ≡ round_at self.entry.bytes.now (changes_at self.entry)) × (result < 65536) }
    {
        word_in(self.bytes, self.lists.len())
    }

    // Copies the depth of local cell l to a place of a buffer.
    pub fn copy_depth(self, l: usize, out: &mut [u8], at: usize)
        requires { (l ≤ held_count self.lists.now) × (at + 4 ≤ length out.old) }
        ensures { out.new ≡ over out.old at (depth_at (changes_at self.entry) self.entry.bytes.now l) }
    {
        copy(out, at, self.bytes, self.lists.len() + DEPTH + 4 * l, 4);
    }

    // Whether a message was taken from every part that is imported from.
    pub fn all_taken(self) -> bool
        ensures { result ≡ all_taken (lists_at self.entry) (changes_at self.entry) self.entry.bytes.now }
    {
        all_taken(self.lists, self.bytes, self.lists.len())
    }

    // Whether a message was written to every part that is exported to.
    pub fn all_written(self) -> bool
        ensures { result ≡ all_written (lists_at self.entry) (changes_at self.entry) self.entry.bytes.now }
    {
        all_written(self.lists, self.bytes, self.lists.len())
    }
}
