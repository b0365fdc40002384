// The front of a message, where the caller knows that there is room for it.
ghost use Rattle.std.specs.Prelude.{◌≡◌, [], ◌∷◌, ◌<◌, ◌≤◌, length};
ghost use Rattle.vocabulary.specs.Bytes.{over};
ghost use Rattle.layout.specs.Words.{bytes_of};
ghost use Rattle.messages.specs.Messages.{header_size};

use layout::inner::put_word;

// Stores the four words of a message; the depths go behind them.
pub fn write_header(out: &mut [u8], from: usize, to: usize, round: usize, count: usize)
    requires { (header_size ≤ length out.old) × (from < 65536) × (to < 65536) × (round < 65536) × (count < 65536) }
    ensures { out.new ≡ over out.old 0 (bytes_of (from ∷ to ∷ round ∷ count ∷ [])) }
{
    put_word(out, 0, from);
    put_word(out, 2, to);
    put_word(out, 4, round);
    put_word(out, 6, count);
}
