// Points: the values at the points that touch the owned cells (F-1, F-2).
#![tactic(auto)]

ghost use Rattle.std.specs.Prelude.{◌≡◌, false, map, ◌-◌, ◌*◌, ◌≤◌, length};
ghost use Rattle.vocabulary.specs.Bytes.{over};
ghost use Rattle.vocabulary.specs.Intervals.{some};
ghost use Rattle.layout.specs.Answers.{answer_of, refused_as};
ghost use Rattle.depths.specs.Depths.{deepest, value_bytes, Within};
ghost use Rattle.round_rule.specs.Rules.{plain_mean};
ghost use Rattle.part_state.specs.State.{local_around, point_cells};
ghost use Rattle.part_state.specs.Checks.{Counts, Fitting};
ghost use Rattle.part_calls.specs.Opened.{unread_at, points_rest};
ghost use Rattle.part_calls.specs.States.{lists_at, changes_at};
ghost use Rattle.part_calls.specs.Calls.{outside, depth_at, point_given, points_given, points_answer, points_out};

use depths::Value;
use depths::inner::put_value;
use layout::inner::{put_word, word_in};
use layout::{Refusal, word_at};
use part_calls::inner::State;
use part_state::inner::{DEPTH, Sizes, count_between, sizes_of};
use round_update::inner::plain_mean;

// How many bytes a point takes: the word of its number and the four of its value.
const POINT_SIZE: usize = 6;

// Whether some cell at a point is not to be read. The ends of the points rise from 0 to the count of all their cells, so one pass sees every cell.
fn some_outside(lists: &[u8], sizes: Sizes) -> bool
    requires { Fitting lists.now sizes }
    ensures { result ≡ some 0 (point_cells lists.now) (unread_at lists.now) }
{
    let at = sizes.point_cells_word();
    (0..sizes.around).any(|t| word_in(lists, 2 * (at + t)) == 0)
}

// The first of points' tests after 20 that refuses. The output has `room` bytes.
fn test_points(s: State, sizes: Sizes, room: usize) -> Result<(), Refusal>
    requires { Counts s.lists.now sizes }
    ensures { refused_as result ≡ points_rest (lists_at s.entry) (changes_at s.entry) s.entry.bytes.now room }
{
    if !s.all_taken() {
        return Err(Refusal::NotTaken);
    }
    if some_outside(s.lists, sizes) {
        return Err(Refusal::PointReach);
    }
    if room < POINT_SIZE * sizes.points {
        return Err(Refusal::Output);
    }
    Ok(())
}

// The value at the k-th point: a gap where only gaps are around it.
fn point_depth(s: State, sizes: Sizes, k: usize) -> Value
    requires { Counts s.lists.now sizes × (outside (lists_at s) ≡ false) × (1 ≤ k) × (k ≤ sizes.points) }
    ensures { (value_bytes result ≡ plain_mean (map (depth_at (changes_at s.entry) s.entry.bytes.now) (local_around s.entry.lists.now k))) × Within deepest result }
{
    let end = sizes.point_ends_word() + (k - 1);
    let at = 2 * (sizes.point_cells_word() + word_at(s.lists, end));
    plain_mean(
        s.lists,
        at,
        count_between(s.lists, end),
        s.bytes,
        s.lists.len() + DEPTH,
    )
}

// Stores the number of the k-th point and its value.
fn put_point(s: State, sizes: Sizes, k: usize, out: &mut [u8])
    requires { Counts s.lists.now sizes × (outside (lists_at s) ≡ false) × (1 ≤ k) × (k ≤ sizes.points) × (6 * sizes.points ≤ length out.old) }
    ensures { out.new ≡ over out.old (6 * (k - 1)) (point_given (lists_at s.entry) (changes_at s.entry) s.entry.bytes.now k) }
{
    let x = point_depth(s, sizes, k);
    let number = word_at(s.lists, sizes.points_word() + k);
    let at = POINT_SIZE * (k - 1);
    put_word(out, at, number);
    put_value(out, at + 2, x);
}

// Stores all points in rising order. The loop goes over their places in the lists.
fn put_points(s: State, sizes: Sizes, out: &mut [u8])
    requires { Counts s.lists.now sizes × (outside (lists_at s) ≡ false) × (6 * sizes.points ≤ length out.old) }
    ensures { out.new ≡ over out.old 0 (points_given (lists_at s.entry) (changes_at s.entry) s.entry.bytes.now) }
{
    for k in 1..sizes.points + 1 {
        put_point(s, sizes, k, out);
    }
}

// Gives each point that touches an owned cell, in rising number, with its value, and changes no other byte of the output.
pub fn points(b: &[u8], out: &mut [u8]) -> Result<u32, Refusal>
    ensures { (answer_of result ≡ points_answer b.now out.old) × (out.new ≡ points_out b.now out.old) }
{
    let s = State::open(b)?;
    let sizes = sizes_of(s.lists);
    test_points(s, sizes, out.len())?;
    put_points(s, sizes, out);
    Ok(sizes.points as u32)
}
