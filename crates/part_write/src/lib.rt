// Write: the message to one importer.
#![tactic(auto)]

ghost use Rattle.std.specs.Prelude.{◌≡◌, ◌+◌, ◌*◌, ◌<◌, ◌≤◌, length, take};
ghost use Rattle.messages.specs.Messages.{header_size, message_size};
ghost use Rattle.vocabulary.specs.Bytes.{over};
ghost use Rattle.vocabulary.specs.Intervals.{blocks};
ghost use Rattle.layout.specs.Answers.{answer_of};
ghost use Rattle.part_state.specs.State.{lists_in, export_count};
ghost use Rattle.part_calls.specs.Opened.{sent_to, sent_at};
ghost use Rattle.part_calls.specs.States.{lists_at, changes_at};
ghost use Rattle.part_calls.specs.Calls.{message_to, write_answer, write_state, write_out};

use layout::limits::MOST_PARTS;
use layout::{Refusal, word_at};
use messages::HEADER_SIZE;
use messages::inner::write_header;
use part_calls::inner::{State, set_flag};
use part_state::inner::{BEFORE_EXPORTS, PART, WRITTEN, count_between, sizes_of};
use part_state::up_to;

// How many depths go to part j: none where j is no part.
fn sent_to(lists: &[u8], j: usize) -> usize
    ensures { (result ≡ sent_to (lists_in lists.now) j) × (result < 65536) }
{
    if !up_to(MOST_PARTS, j) {
        return 0;
    }
    count_between(lists, BEFORE_EXPORTS + j)
}

// Copies the depths of `count` export entries, after the first `from` of them, behind the words of a message. Entries have two bytes and depths four, so the
// loop goes over their number.
fn put_depths(s: State, from: usize, count: usize, out: &mut [u8])
    requires { (from + count ≤ export_count s.lists.now) × (from < 65536) × (count < 65536) × (message_size count ≤ length out.old) }
    ensures { out.new ≡ over out.old header_size (blocks from count (sent_at s.entry.lists.now (changes_at s.entry) s.entry.bytes.now)) }
{
    let base = sizes_of(s.lists).exports_word();
    for t in 0..count {
        let l = word_at(s.lists, base + (from + t));
        s.copy_depth(l, out, HEADER_SIZE + 4 * t);
    }
}

// The message to part j.
fn put_message(s: State, j: usize, count: usize, out: &mut [u8])
    requires { (count ≡ sent_to (lists_at s) j) × (1 ≤ count) × (count < 65536) × (message_size count ≤ length out.old) }
    ensures { out.new ≡ over out.old 0 (message_to (lists_at s.entry) (changes_at s.entry) s.entry.bytes.now j) }
{
    let from = word_at(s.lists, BEFORE_EXPORTS + j);
    write_header(out, word_at(s.lists, PART), j, s.round(), count);
    put_depths(s, from, count, out);
}

// Gives the message to part j.
pub fn write(b: &mut [u8], j: u32, out: &mut [u8]) -> Result<u32, Refusal>
    ensures { (answer_of result ≡ write_answer b.old j out.old)
        × (b.new ≡ write_state b.old j out.old)
        × (out.new ≡ write_out b.old j out.old) }
{
    let s = State::open(b)?;
    let count = sent_to(s.lists, j as usize);
    if count < 1 {
        return Err(Refusal::Receiver);
    }
    if out.len() < HEADER_SIZE + 4 * count {
        return Err(Refusal::Output);
    }
    put_message(s, j as usize, count, out);
    let flags = s.lists.len() + WRITTEN;
    set_flag(b, flags + j as usize);
    Ok((HEADER_SIZE + 4 * count) as u32)
}
