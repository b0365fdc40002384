// Whether all imports are taken, or all exports written, in this round: for these the two tables of ends and the two rows of flags are alike.
ghost use Rattle.std.specs.Prelude.{◌≡◌, ◌<◌};
ghost use Rattle.vocabulary.specs.Intervals.{every};
ghost use Rattle.layout.specs.Limits.{most_parts};
ghost use Rattle.part_state.specs.State.{lists_in};
ghost use Rattle.part_calls.specs.Calls.{all_taken, all_written};
ghost use Rattle.part_calls.specs.Opened.{settled_at};

use layout::byte_at;
use layout::limits::MOST_PARTS;
use part_state::inner::{BEFORE_EXPORTS, BEFORE_IMPORTS, TAKEN, WRITTEN, count_between};

// Whether nothing is to be taken from (written to) part j, or its flag is set.
#[tactic(auto, unfolding(crate::specs::Opened::settled_at))]
fn settled(lists: &[u8], b: &[u8], ends: usize, flags: usize, j: usize) -> bool
    requires { (ends < 65536) × (flags < 1000000) × (j < 65536) }
    ensures { result ≡ settled_at lists.now b.now ends flags j }
{
    count_between(lists, ends + j) == 0 || byte_at(b, flags + j) == 1
}

fn all_settled(lists: &[u8], b: &[u8], ends: usize, flags: usize) -> bool
    requires { (ends < 65536) × (flags < 1000000) }
    ensures { result ≡ every 1 most_parts (settled_at lists.now b.now ends flags) }
{
    (1..MOST_PARTS + 1).all(|j| settled(lists, b, ends, flags, j))
}

// Whether a message was taken from every part that is imported from, in the state b whose lists end at `changes`. It takes any bytes, and no `State`, as does the
// next: docs/ARCHITECTURE.md names both, and no type may ask more of them.
pub fn all_taken(lists: &[u8], b: &[u8], changes: usize) -> bool
    requires { changes < 131072 }
    ensures { result ≡ all_taken (lists_in lists.now) changes b.now }
{
    all_settled(lists, b, BEFORE_IMPORTS, changes + TAKEN)
}

// Whether a message was written to every part that is exported to.
pub fn all_written(lists: &[u8], b: &[u8], changes: usize) -> bool
    requires { changes < 131072 }
    ensures { result ≡ all_written (lists_in lists.now) changes b.now }
{
    all_settled(lists, b, BEFORE_EXPORTS, changes + WRITTEN)
}
