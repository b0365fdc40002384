// A flag tells that a message was taken or written in this round.
ghost use Rattle.std.specs.Prelude.{◌≡◌, ◌+◌, ◌<◌, ◌≤◌, length, set, replicate};
ghost use Rattle.vocabulary.specs.Bytes.{over};

// Sets the flag at a place.
pub fn set_flag(b: &mut [u8], at: usize)
    requires { at < length b.old }
    ensures { b.new ≡ set b.old at 1 }
{
    b[at] = 1;
}

// Clears n bytes from `at` on.
pub fn clear(b: &mut [u8], at: usize, n: usize)
    requires { at + n ≤ length b.old }
    ensures { b.new ≡ over b.old at (replicate n 0) }
{
    b[at..at + n].fill(0);
}
