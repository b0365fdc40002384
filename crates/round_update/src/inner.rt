// The new value of one cell, a depth or a gap, from a table of its reach and the bytes of a field, where the caller knows both to be there.
ghost use Rattle.std.specs.Prelude.{◌≡◌, ◌+◌, ◌*◌, ◌/◌, ◌<◌, ◌≤◌, pos, nat_abs, ◌+ℤ◌, ◌*ℤ◌, length};
ghost use Rattle.std.specs.Int.Signed.{quot_z};
ghost use Rattle.vocabulary.specs.Intervals.{listed};
ghost use Rattle.layout.specs.Words.{word, word_at};
ghost use Rattle.layout.specs.Limits.{most_steps, most_weight};
ghost use Rattle.depths.specs.Depths.{deepest, four, value_bytes, Within};
ghost use Rattle.round_rule.specs.Rules.{without_gaps, read_by, quotient, mean_of, plain_mean, least_of, new_depth};
ghost use Rattle.round_rule.specs.Kinds.{kind_number};
ghost use Rattle.round_rule.specs.Code.{divided_by, lesser_of};
ghost use Rattle.round_update.specs.Update.{table_entries, olds_at, PlacesThere, Weighed, UpdateReady, placed_at};

use depths::Value;
use depths::inner::value_in;
use layout::inner::word_in;
use round_rule::Kind;

// The weight of entry t. No layer is above 8 and no weight above 15, so the low byte of each word is all of it.
fn weight_of(weights: &[u8], b: &[u8], at: usize, t: usize) -> usize
    requires { (at + 4 * t + 3 < length b.now) × (word b.now (at + 4 * t + 2) ≤ most_steps)
        × (2 * (word b.now (at + 4 * t + 2) / 2) + 1 < length weights.now) × (word_at weights.now (word b.now (at + 4 * t + 2) / 2) ≤ most_weight) }
    ensures { (result ≡ word_at weights.now (word b.now (at + 4 * t + 2) / 2)) × (result ≤ most_weight) }
{
    let layer = b[at + 4 * t + 3] as usize;
    weights[2 * (layer / 2) + 1] as usize
}

// The place in the field at `base` that the word at `o` in b names.
fn place_of(b: &[u8], o: usize, base: usize) -> usize
    requires { (o + 1 < length b.now) × (base + 4 * word b.now o < 18446744073709551616) }
    ensures { result ≡ base + 4 * word b.now o }
{
    base + 4 * word_in(b, o)
}

// One more weighed depth. The product is taken in 32 bits, which hold it: so the depth is read at once and not byte by byte.
fn add_weighed(sum: i64, w: usize, d: i32) -> i64
    requires { (nat_abs sum ≤ 1179630000000) × (w ≤ most_weight) × (nat_abs d ≤ deepest) }
    ensures { result ≡ sum +ℤ pos w *ℤ d }
{
    sum + ((w as i32) * d) as i64
}

// The quotient with its fraction dropped, of a sum that may have more than 32 bits.
fn wide_truncated(sum: i64, w: usize) -> i32
    requires { (1 ≤ w) × (w ≤ 983025) × (nat_abs sum ≤ w * deepest) }
    ensures { result ≡ quot_z sum (pos w) }
{
    (sum / (w as i64)) as i32
}

// The quotient with its fraction dropped. Numbers of 32 bits are divided faster, and most sums fit.
fn truncated(sum: i64, w: usize) -> i32
    requires { (1 ≤ w) × (w ≤ 983025) × (nat_abs sum ≤ w * deepest) }
    ensures { result ≡ quot_z sum (pos w) }
{
    if sum < -2000000000 {
        return wide_truncated(sum, w);
    }
    if 2000000000 < sum {
        return wide_truncated(sum, w);
    }
    (sum as i32) / (w as i32)
}

// The mean, "the greatest whole number not above the quotient" (F-4): one less, if the number without the fraction is above it.
#[tactic(auto, using(crate::proofs::Registers::lowered_gives, crate::proofs::Registers::same_gives))]
fn quotient(sum: i64, w: usize) -> i32
    requires { (1 ≤ w) × (w ≤ 983025) × (nat_abs sum ≤ w * deepest) }
    ensures { result ≡ quotient sum w }
{
    let q = truncated(sum, w);
    let back = w as i64 * q as i64;
    if sum < back { q - 1 } else { q }
}

// The mean by its two sums. A sum of weights of 0 says that nothing was read: only gaps, or only weights of 0.
fn mean_by(sum: i64, w: usize) -> Value
    requires { (w ≤ 983025) × (nat_abs sum ≤ w * deepest) }
    ensures { result ≡ divided_by sum w }
{
    if w == 0 {
        return Value::Gap;
    }
    Value::Depth(quotient(sum, w))
}

// The mean over the n entries at `at` in b. Gaps are passed over, in the sum and in its divisor. It shares no loop with `plain_mean`: one for both would
// take the weight and the place of an entry as closures, with a clause for what each gives, and is no plainer than two loops of ten lines.
// One pass makes both sums: a chain would carry them as a pair. Reach and field are stretches of larger buffers, and their numbers count from there.
fn mean_of(weights: &[u8], b: &[u8], at: usize, n: usize, f: &[u8], base: usize) -> Value
    requires { PlacesThere 4 b.now at n f.now base × Weighed weights.now b.now at n }
    ensures { result ≡ mean_of weights.now (read_by weights.now 1 (olds_at f.now base (table_entries b.now at n))) }
{
    let mut sum: i64 = 0;
    let mut weight_sum: usize = 0;
    for t in 0..n {
        let w = weight_of(weights, b, at, t);
        weight_sum += match value_in(f, place_of(b, at + 4 * t, base)) {
            Value::Depth(z) => {
                sum = add_weighed(sum, w, z);
                w
            }
            Value::Gap => 0, // it counts for nothing in the divisor
        };
    }
    mean_by(sum, weight_sum)
}

// The mean, all weights 1, of the n values of the field at `base` in f whose places are the words at `at` in b.
// One pass makes the sum and the count: a chain would carry them as a pair.
pub fn plain_mean(b: &[u8], at: usize, n: usize, f: &[u8], base: usize) -> Value
    requires { PlacesThere 2 b.now at n f.now base }
    ensures { (value_bytes result ≡ plain_mean (listed 0 n (placed_at b.now at f.now base))) × Within deepest result }
{
    let mut sum: i64 = 0;
    let mut count: usize = 0;
    for t in 0..n {
        count += match value_in(f, place_of(b, at + 2 * t, base)) {
            Value::Depth(z) => {
                sum = add_weighed(sum, 1, z);
                1
            }
            Value::Gap => 0,
        };
    }
    mean_by(sum, count)
}

// The lesser of a depth and the least so far, which is a gap where none was read.
fn lesser_of(y: i32, x: Value) -> Value
    ensures { result ≡ lesser_of y x }
{
    match x {
        Value::Depth(z) => Value::Depth(z.min(y)),
        Value::Gap => Value::Depth(y),
    }
}

// The least depth of the n entries: a plain loop, since each turn reads two arrays by one number, as in the means.
fn least_of(b: &[u8], at: usize, n: usize, f: &[u8], base: usize) -> Value
    requires { PlacesThere 4 b.now at n f.now base }
    ensures { result ≡ least_of (without_gaps (olds_at f.now base (table_entries b.now at n))) }
{
    let mut x = Value::Gap;
    for t in 0..n {
        x = match value_in(f, place_of(b, at + 4 * t, base)) {
            Value::Depth(z) => lesser_of(z, x),
            Value::Gap => x,
        };
    }
    x
}

// The new value of the cell at the place `own` of the field that stands at `base` in f. Its reach are the n entries at `at` in b.
pub fn new_depth(
    kind: Kind,
    weights: &[u8],
    b: &[u8],
    at: usize,
    n: usize,
    f: &[u8],
    base: usize,
    own: usize,
) -> Value
    requires { UpdateReady (kind_number kind) weights.now b.now at n f.now base own }
    ensures { (value_bytes result ≡ new_depth (kind_number kind) weights.now (four f.now (base + 4 * own))
        (olds_at f.now base (table_entries b.now at n))) × Within deepest result }
{
    match kind {
        Kind::Hold => value_in(f, base + 4 * own),
        Kind::Mean => mean_of(weights, b, at, n, f, base),
        Kind::Shoalest => least_of(b, at, n, f, base),
    }
}
