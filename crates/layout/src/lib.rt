// The layout of words and answers. Here stand the functions that take any bytes; those that
// suppose their bytes to be there are in `inner`.
#![tactic(auto)]

pub mod inner;
pub mod limits;
mod refusal;

ghost use Rattle.std.specs.Prelude.{◌≡◌, ◌<◌, get_or, set};
ghost use Rattle.vocabulary.specs.Bytes.{byte_at};
ghost use Rattle.layout.specs.Words.{word_at};

use crate::inner::word_in;
pub use refusal::Refusal;

// The item at `i` of a list, and the default past the end.
pub fn get_or<T: Copy + Drop>(list: &[T], i: usize, default: T) -> T
    ensures { result ≡ get_or list.now i default }
{
    list.get(i).copied().unwrap_or(default)
}

// Stores v at `i` of a list, where there is a place for it.
pub fn put_at<T: Copy>(list: &mut [T], i: usize, v: T)
    ensures { list.new ≡ set list.old i v }
{
    if i < list.len() {
        list[i] = v;
    }
}

// The byte at `i`, and 0 past the end.
pub fn byte_at(b: &[u8], i: usize) -> u8
    ensures { result ≡ byte_at b.now i }
{
    get_or(b, i, 0)
}

// The word of index `i`; a byte past the end counts 0.
pub fn word_at(b: &[u8], i: usize) -> usize
    ensures { (result ≡ word_at b.now i) × (result < 65536) }
{
    if i < b.len() / 2 {
        return word_in(b, 2 * i);
    }
    if i < b.len() {
        usize::from(byte_at(b, 2 * i)) * 256
    } else {
        0
    }
}
