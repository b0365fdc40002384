// Words written one after another, and a list of them given where there is room (16).
ghost use Rattle.std.specs.Prelude.{◌≡◌, [], ◌∷◌, ◌+◌, ◌*◌, ◌<◌, ◌≤◌, length};
ghost use Rattle.vocabulary.specs.Intervals.{listed};
ghost use Rattle.layout.specs.Words.{word_at};
ghost use Rattle.layout.specs.Answers.{answer_of};
ghost use Rattle.word_lists.specs.Putting.{Put, given_answer, given_out};

use layout::inner::put_word;
use layout::{Refusal, word_at};

// Writes w as word s, and gives how many words there are then.
pub fn put_one(b: &mut [u8], s: usize, w: usize) -> usize
    requires { (2 * (s + 1) ≤ length b.old) × (s < 1000000) × (w < 65536) }
    ensures { Put b.old b.new s result (w ∷ []) }
{
    put_word(b, 2 * s, w);
    s + 1
}

// Writes the numbers of a list.
pub fn put_list(b: &mut [u8], s: usize, list: &[u16]) -> usize
    requires { (2 * (s + length list.now) ≤ length b.old) × (s < 65536) × (length list.now ≤ 65536) }
    ensures { Put b.old b.new s result list.now }
{
    let mut t = s;
    for &w in list {
        t = put_one(b, t, usize::from(w));
    }
    t
}

// Writes the first n words of v; those that are not there are 0. One function for both would take the words as an iterator, of whose items each
// caller would have to prove what this loop says in a line.
pub fn put_words(b: &mut [u8], s: usize, v: &[u8], n: usize) -> usize
    requires { (2 * (s + n) ≤ length b.old) × (s < 65536) × (n < 65536) }
    ensures { Put b.old b.new s result (listed 0 n (word_at v.now)) }
{
    let mut t = s;
    for k in 0..n {
        t = put_one(b, t, word_at(v, k));
    }
    t
}

// Gives the numbers of a list as words, where there is room for them.
pub fn give(list: &[u16], out: &mut [u8]) -> Result<u32, Refusal>
    requires { length list.now ≤ 65536 }
    ensures { (answer_of result ≡ given_answer list.now out.old)
        × (out.new ≡ given_out list.now out.old) }
{
    if out.len() < 2 * list.len() {
        return Err(Refusal::Output);
    }
    put_list(out, 0, list);
    Ok(list.len() as u32)
}
