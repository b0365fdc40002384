// Collect: the owned depths put into a field.
#![tactic(auto)]

ghost use Rattle.std.specs.Prelude.{◌≡◌, ◌*◌, ◌<◌, ◌≤◌, length};
ghost use Rattle.layout.specs.Answers.{answer_of};
ghost use Rattle.part_state.specs.State.{cells_of_mesh, owned_count};
ghost use Rattle.part_calls.specs.States.{lists_at, changes_at};
ghost use Rattle.part_calls.specs.Calls.{collected_in, collect_answer, collect_out};

use cell_numbers::Local;
use cell_numbers::inner::index_of;
use layout::{Refusal, word_at};
use part_calls::inner::State;
use part_state::inner::{CELLS, FIRST, OWNED, global_of};

// Puts the depths of the owned cells at their places in the field. The loop goes over the cells' local numbers.
fn gather(s: State, f: &mut [u8])
    requires { 4 * cells_of_mesh s.lists.now ≤ length f.old }
    ensures { f.new ≡ collected_in (lists_at s.entry) (changes_at s.entry) s.entry.bytes.now (owned_count s.entry.lists.now) f.old }
{
    let first = word_at(s.lists, FIRST);
    let owned = word_at(s.lists, OWNED);
    for l in 1..owned + 1 {
        let c = global_of(s.lists, Local(l as u16));
        s.copy_depth(l, f, 4 * index_of(c, first));
    }
}

// Puts the owned depths of a state at round k into a field, and changes no other byte of it.
pub fn collect(b: &[u8], k: u32, f: &mut [u8]) -> Result<u32, Refusal>
    ensures { (answer_of result ≡ collect_answer b.now k f.old) × (f.new ≡ collect_out b.now k f.old) }
{
    let s = State::open(b)?;
    if s.round() != k as usize {
        return Err(Refusal::OtherRound);
    }
    if f.len() < 4 * word_at(s.lists, CELLS) {
        return Err(Refusal::Output);
    }
    gather(s, f);
    Ok(word_at(s.lists, OWNED) as u32)
}
