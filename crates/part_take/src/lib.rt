// Take: one message into a state.
#![tactic(auto)]

ghost use Rattle.std.specs.Prelude.{◌≡◌, ◌+◌, ◌*◌, ◌<◌, ◌≤◌, length, set};
ghost use Rattle.vocabulary.specs.Bytes.{over};
ghost use Rattle.layout.specs.Limits.{most_parts};
ghost use Rattle.layout.specs.Answers.{answer_of, refused_as};
ghost use Rattle.messages.specs.Messages.{depths_of, message_size};
ghost use Rattle.part_state.specs.State.{lists_in, depth_place, state_length, taken_place};
ghost use Rattle.part_calls.specs.Opened.{bad_sender, take_rest};
ghost use Rattle.part_calls.specs.States.{lists_at, changes_at};
ghost use Rattle.part_calls.specs.Calls.{take_answer, take_state};

use layout::inner::copy;
use layout::limits::MOST_PARTS;
use layout::{Refusal, byte_at, word_at};
use messages::{HEADER_SIZE, Header, read};
use part_calls::inner::{State, set_flag};
use part_state::inner::{BEFORE_IMPORTS, DEPTH, PART, TAKEN, count_between};
use part_state::up_to;

// Whether a message with these words is no message to this part from one that it imports from, with as many depths (21).
fn bad_sender(lists: &[u8], header: Header) -> bool
    ensures { result ≡ bad_sender (lists_in lists.now) header.from header.to header.count }
{
    if header.to != word_at(lists, PART) {
        return true;
    }
    if !up_to(MOST_PARTS, header.from) {
        return true;
    }
    let n = count_between(lists, BEFORE_IMPORTS + header.from);
    if n < 1 {
        return true;
    }
    header.count != n
}

// The first of take's tests of a message's words that refuses it.
fn test_header(s: State, header: Header) -> Result<(), Refusal>
    ensures { refused_as result ≡ take_rest (lists_at s.entry) (changes_at s.entry) s.entry.bytes.now header.from header.to header.round header.count }
{
    if bad_sender(s.lists, header) {
        return Err(Refusal::Sender);
    }
    if header.round != s.round() {
        return Err(Refusal::MessageRound);
    }
    if byte_at(s.bytes, s.lists.len() + TAKEN + header.from) == 1 {
        return Err(Refusal::AlreadyTaken);
    }
    Ok(())
}

// Sets the flag of part `from`, and copies the message's depths to the cells after `before`.
fn store(b: &mut [u8], changes: usize, from: usize, before: usize, x: &[u8], count: usize)
    requires { (changes < 131072) × (from ≤ most_parts) × (before < 65536) × (count < 65536) × (state_length changes (before + count) ≤ length b.old) × (length x.now ≡ message_size count) }
    ensures { b.new ≡ over (set b.old (taken_place changes from) 1) (depth_place changes (before + 1)) (depths_of x.now) }
{
    set_flag(b, changes + TAKEN + from);
    copy(
        b,
        changes + DEPTH + 4 * (before + 1),
        x,
        HEADER_SIZE,
        4 * count,
    );
}

// Takes one message into a state.
pub fn take(b: &mut [u8], x: &[u8]) -> Result<u32, Refusal>
    ensures { (answer_of result ≡ take_answer b.old x.now) × (b.new ≡ take_state b.old x.now) }
{
    // `let .. else`, and not `?`: the specification asks for this form here (docs/DECISIONS.md, D-99).
    let reading = read(x);
    let Ok(header) = reading else {
        return reading.and(Ok(0));
    };
    let s = State::open(b)?;
    test_header(s, header)?;
    let before = word_at(s.lists, BEFORE_IMPORTS + header.from);
    let changes = s.lists.len();
    store(b, changes, header.from, before, x, header.count);
    Ok(0)
}
