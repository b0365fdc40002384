// The new values of the owned cells, by the lists and the rule of a state.
ghost use Rattle.std.specs.Prelude.{◌≡◌, ◌+◌, ◌*◌, ◌≤◌, length};
ghost use Rattle.vocabulary.specs.Bytes.{over};
ghost use Rattle.vocabulary.specs.Intervals.{blocks};
ghost use Rattle.depths.specs.Depths.{deepest, value_bytes, Within};
ghost use Rattle.round_rule.specs.Kinds.{kind_number};
ghost use Rattle.part_state.specs.State.{rule_kind, weights};
ghost use Rattle.part_state.specs.Checks.{Counts};
ghost use Rattle.part_calls.specs.States.{lists_at, changes_at};
ghost use Rattle.part_calls.specs.Calls.{new_at};

use depths::Value;
use depths::inner::put_value;
use layout::inner::word_in;
use layout::word_at;
use part_calls::inner::State;
use part_state::inner::{DEPTH, KIND, STEPS, Sizes, WEIGHTS, weight_count};
use round_rule::Kind;
use round_update::inner::new_depth;

// The new value of local cell l.
fn renew_one(s: State, kind: Kind, weighting: &[u8], sizes: Sizes, l: usize) -> Value
    requires { (kind_number kind ≡ rule_kind s.lists.now) × (weighting.now ≡ weights s.lists.now) × Counts s.lists.now sizes × (1 ≤ l) × (l ≤ sizes.owned) }
    ensures { (value_bytes result ≡ new_at (lists_at s.entry) (changes_at s.entry) s.entry.bytes.now l) × Within deepest result }
{
    let o = 2 * (sizes.reach_word() + (l - 1));
    let from = word_in(s.lists, o);
    let to = word_in(s.lists, o + 2);
    let at = 2 * sizes.entry_word() + 4 * from;
    new_depth(
        kind,
        weighting,
        s.lists,
        at,
        to - from,
        s.bytes,
        s.lists.len() + DEPTH,
        l,
    )
}

// The new values of the owned cells. The state is only read here, so every one comes from old ones. The loop goes over the cells' numbers, which the state's
// lists are read by.
fn renew(s: State, kind: Kind, weighting: &[u8], sizes: Sizes, new: &mut [u8])
    requires { (kind_number kind ≡ rule_kind s.lists.now)
        × (weighting.now ≡ weights s.lists.now)
        × Counts s.lists.now sizes
        × (4 * sizes.owned ≤ length new.old) }
    ensures { new.new ≡ over new.old 0 (blocks 1 sizes.owned (new_at (lists_at s.entry) (changes_at s.entry) s.entry.bytes.now)) }
{
    for l in 1..sizes.owned + 1 {
        let x = renew_one(s, kind, weighting, sizes, l);
        put_value(new, 4 * (l - 1), x);
    }
}

// The new values, by the rule in the lists.
pub fn renew_by(s: State, sizes: Sizes, new: &mut [u8])
    requires { Counts s.lists.now sizes × (4 * sizes.owned ≤ length new.old) }
    ensures { new.new ≡ over new.old 0 (blocks 1 sizes.owned (new_at (lists_at s.entry) (changes_at s.entry) s.entry.bytes.now)) }
{
    match Kind::try_from(word_at(s.lists, KIND) as u32) {
        Ok(k) => {
            let end = WEIGHTS + 2 * weight_count(k, word_at(s.lists, STEPS));
            renew(s, k, &s.lists[WEIGHTS..end], sizes, new)
        }
        // no state has such a rule (20)
        Err(_) => {}
    }
}
