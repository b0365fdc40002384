// Depths and gaps at places that the caller knows to be there.
ghost use Rattle.std.specs.Prelude.{◌≡◌, ◌+◌, ◌*◌, ◌<◌, ◌≤◌, length};
ghost use Rattle.vocabulary.specs.Bytes.{over};
ghost use Rattle.vocabulary.specs.Intervals.{every};
ghost use Rattle.depths.specs.Depths.{value_from, value_bytes, ranged_at};

use crate::{Value, in_range};

// The number whose four bytes stand for a gap.
const GAP_NUMBER: i32 = i32::MIN;

// What stands in the four bytes from `o` on.
// Here alone is the number of a gap read, and in `put_value` alone written: a `From` would have this one caller.
pub fn value_in(b: &[u8], o: usize) -> Value
    requires { o + 3 < length b.now }
    ensures { result ≡ value_from b.now o }
{
    let z = i32::from_be_bytes([b[o], b[o + 1], b[o + 2], b[o + 3]]);
    if z == GAP_NUMBER {
        return Value::Gap;
    }
    Value::Depth(z)
}

// Stores a depth or a gap in the four bytes from `o` on.
pub fn put_value(b: &mut [u8], o: usize, x: Value)
    requires { o + 3 < length b.old }
    ensures { b.new ≡ over b.old o (value_bytes x) }
{
    let z = match x {
        Value::Depth(z) => z,
        Value::Gap => GAP_NUMBER,
    };
    b[o..o + 4].copy_from_slice(&z.to_be_bytes());
}

// Whether the n values from `at` on may stand in a field: each a depth in range or a gap.
pub fn values_valid(b: &[u8], at: usize, n: usize) -> bool
    requires { at + 4 * n ≤ length b.now }
    ensures { result ≡ every 0 n (ranged_at b.now at) }
{
    // no way out before the end, so that several values are tested at once
    let mut valid = true;
    for k in 0..n {
        let fine = match value_in(b, at + 4 * k) {
            Value::Depth(z) => in_range(z),
            Value::Gap => true,
        };
        valid = fine && valid;
    }
    valid
}
