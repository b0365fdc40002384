// Messages. Here stands the reader, which takes any bytes; what supposes room for a message is in `inner`.
#![tactic(auto)]

pub mod inner;

ghost use Rattle.std.specs.Prelude.{◌≡◌};
ghost use Rattle.messages.specs.Messages.{bad15, reading};
ghost use Rattle.messages.specs.Readings.{IsHeader, meant_reading};

use depths::inner::values_valid;
use layout::{Refusal, word_at};

// The bytes of the four words before the depths.
pub const HEADER_SIZE: usize = 8;

// The words of a message. Its depths stay where they are, `count` of them behind the words.
#[derive(Clone, Copy)]
pub struct Header {
    pub from: usize,
    pub to: usize,
    pub round: usize,
    pub count: usize,
}

// Whether the bytes are to be refused, with number 15.
fn bad_message(b: &[u8]) -> bool
    ensures { result ≡ bad15 b.now }
{
    if b.len() < HEADER_SIZE {
        return true;
    }
    let count = word_at(b, 3);
    if b.len() != HEADER_SIZE + 4 * count {
        return true;
    }
    !values_valid(b, HEADER_SIZE, count)
}

// The four words at the front of a message.
fn header_of(b: &[u8]) -> Header
    ensures { IsHeader b.now result }
{
    Header {
        from: word_at(b, 0),
        to: word_at(b, 1),
        round: word_at(b, 2),
        count: word_at(b, 3),
    }
}

// Reads a message out of any bytes.
pub fn read(b: &[u8]) -> Result<Header, Refusal>
    ensures { meant_reading b.now result ≡ reading b.now }
{
    if bad_message(b) {
        return Err(Refusal::Message);
    }
    Ok(header_of(b))
}
