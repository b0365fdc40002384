// Rules: their kinds, and the test that takes any bytes.
#![tactic(auto)]

ghost use Rattle.std.specs.Prelude.{◌≡◌};
ghost use Rattle.vocabulary.specs.Intervals.{some};
ghost use Rattle.round_rule.specs.Rules.{too_heavy, bad11};
ghost use Rattle.round_rule.specs.Kinds.{kind_number, rule_of};

use layout::limits::MOST_WEIGHT;
use layout::{Refusal, word_at};

// "The rule kind is 0 hold, 1 mean, 2 shoalest": each chooses another update of a value.
#[derive(Clone, Copy, Debug, PartialEq, Eq)]
pub enum Kind {
    Hold,
    Mean,
    Shoalest,
}

// The kind by its number. Here alone the number is looked at, and every other is refused.
impl TryFrom<u32> for Kind {
    type Error = Refusal;

    ghost try_from_gives = { λ number result. result ≡ rule_of number };

    fn try_from(number: u32) -> Result<Kind, Refusal> {
        match number {
            0 => Ok(Kind::Hold),
            1 => Ok(Kind::Mean),
            2 => Ok(Kind::Shoalest),
            3..=4294967295 => Err(Refusal::Rule),
        }
    }
}

// Whether one of the first `count` weights is above 15.
fn too_heavy(weights: &[u8], count: usize) -> bool
    ensures { result ≡ some 0 count (too_heavy weights.now) }
{
    (0..count).any(|k| MOST_WEIGHT < word_at(weights, k))
}

// Whether the weights of a mean are wrong under a stencil of `steps` steps.
fn bad_mean_weights(steps: usize, weights: &[u8]) -> bool
    ensures { result ≡ bad11 1 steps weights.now }
{
    let count = steps / 2 + 1;
    // the length by its halves, so that no count is too large to double
    if weights.len() % 2 != 0 {
        return true;
    }
    if weights.len() / 2 != count {
        return true;
    }
    if too_heavy(weights, count) {
        return true;
    }
    word_at(weights, 0) == 0
}

// Whether the weights of a rule of this kind are wrong under a stencil of `steps` steps.
pub fn bad_weights(kind: Kind, steps: usize, weights: &[u8]) -> bool
    ensures { result ≡ bad11 (kind_number kind) steps weights.now }
{
    match kind {
        Kind::Hold => weights.len() != 0,
        Kind::Mean => bad_mean_weights(steps, weights),
        Kind::Shoalest => weights.len() != 0,
    }
}

// Whether a rule is to be refused, with number 11, under a stencil of `steps` steps.
pub fn bad_rule(kind: u32, steps: usize, weights: &[u8]) -> bool
    ensures { result ≡ bad11 kind steps weights.now }
{
    match Kind::try_from(kind) {
        Ok(k) => bad_weights(k, steps, weights),
        Err(_) => true,
    }
}
