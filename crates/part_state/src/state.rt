// Whether bytes begin with a part's state (20).
ghost use Rattle.std.specs.Prelude.{◌≡◌, ◌+◌, ◌*◌, ◌<◌, length};
ghost use Rattle.vocabulary.specs.Intervals.{every};
ghost use Rattle.vocabulary.specs.Tests.{all_of};
ghost use Rattle.layout.specs.Limits.{most_parts};
ghost use Rattle.part_state.specs.State.{valid_flags, dynamic_tests, is_state, is_state_at};

use crate::lists::valid_lists;
use crate::places::{DEPTHS, LENGTH, TAKEN, WRITTEN, sizes_of};
use depths::inner::values_valid;
use layout::inner::word_in;
use layout::limits::{LAST_ROUND, MOST_PARTS};
use layout::{byte_at, word_at};

// The flags of part j.
fn valid_flag(b: &[u8], changes: usize, j: usize) -> bool
    requires { (changes < 1000000) × (j < 65536) }
    ensures { result ≡ valid_flags b.now changes j }
{
    byte_at(b, changes + TAKEN + j) <= 1 && byte_at(b, changes + WRITTEN + j) <= 1
}

fn valid_flags(b: &[u8], changes: usize) -> bool
    requires { changes < 1000000 }
    ensures { result ≡ every 1 most_parts (valid_flags b.now changes) }
{
    (1..MOST_PARTS + 1).all(|j| valid_flag(b, changes, j))
}

// What calls change, from `changes` on, where n cells are held.
#[tactic(auto, unfolding(crate::specs::State::dynamic_tests))]
fn valid_changes(b: &[u8], changes: usize, n: usize) -> bool
    requires { (changes < 1000000) × (n < 65536) }
    ensures { result ≡ all_of (dynamic_tests b.now changes n) }
{
    changes + DEPTHS + 4 * n <= b.len()
        && word_in(b, changes) <= LAST_ROUND
        && valid_flags(b, changes)
        && values_valid(b, changes + DEPTHS, n)
}

// The state b, whose lists end at `changes`.
fn valid_state(lists: &[u8], b: &[u8], changes: usize) -> bool
    requires { (changes ≡ length lists.now) × (changes < 1000000) }
    ensures { result ≡ is_state_at lists.now changes b.now }
{
    let sizes = sizes_of(lists);
    changes == 2 * sizes.words()
        && valid_lists(lists, sizes)
        && valid_changes(b, changes, sizes.held)
}

// Whether the bytes begin with a part's state.
#[tactic(auto, unfolding(crate::specs::State::is_state), using(crate::proofs::StateChecks::cut_lists, crate::proofs::StateChecks::state_short))]
pub fn is_state(b: &[u8]) -> bool
    ensures { result ≡ is_state b.now }
{
    let changes = 2 * word_at(b, LENGTH);
    changes <= b.len() && valid_state(&b[..changes], b, changes)
}
