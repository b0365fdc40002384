// Words and copies at places that the caller knows to be there.
ghost use Rattle.std.specs.Prelude.{◌≡◌, ◌+◌, ◌<◌, ◌≤◌, length, take, drop};
ghost use Rattle.vocabulary.specs.Bytes.{over};
ghost use Rattle.layout.specs.Words.{word, word_bytes};

// The word whose high byte stands at `o`.
#[tactic(auto, unfolding(crate::specs::Words::word))]
pub fn word_in(b: &[u8], o: usize) -> usize
    requires { o + 1 < length b.now }
    ensures { (result ≡ word b.now o) × (result < 65536) }
{
    usize::from(u16::from_be_bytes([b[o], b[o + 1]]))
}

// Stores the word `v` with its high byte at `o`.
pub fn put_word(b: &mut [u8], o: usize, v: usize)
    requires { (o + 1 < length b.old) × (v < 65536) }
    ensures { b.new ≡ over b.old o (word_bytes v) }
{
    b[o..o + 2].copy_from_slice(&(v as u16).to_be_bytes());
}

// Copies all items of `src`. A loop, since the library's `copy_from_slice` calls `memcpy`, which who links the engine without a C library would have to give.
pub fn copy_items<T: Copy>(dst: &mut [T], src: &[T])
    requires { length dst.old ≡ length src.now }
    ensures { dst.new ≡ src.now }
{
    for k in 0..src.len() {
        dst[k] = src[k];
    }
}

// Copies n bytes of `src` from `from` on into `dst` at `at`.
pub fn copy(dst: &mut [u8], at: usize, src: &[u8], from: usize, n: usize)
    requires { (at + n ≤ length dst.old) × (from + n ≤ length src.now) }
    ensures { dst.new ≡ over dst.old at (take n (drop from src.now)) }
{
    copy_items(&mut dst[at..at + n], &src[from..from + n]);
}
