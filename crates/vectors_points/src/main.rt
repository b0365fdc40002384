// Runs the examples of points (F-1, F-2, F-4) on the compiled calls. Each line names an example and prints what its call answered: the count and what it
// gave, or the number of the refusal. The file `stdout` has these lines, to be read beside the requests.
#![tactic(auto)]

use vectors_print::{
    Form, OWNERS, STENCIL, WEIGHTS, five_cells, five_values, put_words, say, say_form, triangles,
};

// ---- points (F-1)

// What part 1 of the five cells needs.
type State = [u8; 224];

// Starts part 1 of the five cells. `vectors_run` has the same for both parts: what they share, `vectors_print`, knows no calls.
fn start(name: &str, b: &mut State) {
    let m = five_cells();
    let field = five_values("0 100 0 200 0 300 0 400 0 500");
    let a = part_start::start(&m, 2, &OWNERS, 1, &STENCIL, 1, &WEIGHTS, &field, b);
    say(name, a);
}

// Takes what part 2 writes to part 1 at round 0.
fn take(name: &str, b: &mut State) {
    let a = part_take::take(b, b"\x00\x02\x00\x01\x00\x00\x00\x01\x00\x00\x01\x90");
    say(name, a);
}

fn points(name: &str, b: &State, out: &mut [u8]) {
    say(name, part_points::points(b, out));
}

// Into no bytes, and into one byte too few: 24 comes before 16.
fn short_points() {
    let mut b = [0u8; 224];
    let mut out = [0u8; 23];
    start("start of part 1", &mut b);
    points(
        "points of part 1, nothing taken, into 0 bytes",
        &b,
        &mut out[..0],
    );
    take("part 1 takes", &mut b);
    points("points of part 1, into 23 bytes", &b, &mut out);
}

// The points of a part as it is started, under hold.
fn first_points(
    name: &str,
    m: &[u8],
    parts: u32,
    owners: &[u8],
    i: u32,
    stencil: &[u8],
    field: &[u8],
) {
    let mut b = [0u8; 266];
    let mut out = [0u8; 36];
    say(
        name,
        part_start::start(m, parts, owners, i, stencil, 0, b"", field, &mut b),
    );
    let a = part_points::points(&b, &mut out);
    say_form(Form::Points, "its points", a, &out);
}

// The five cells as one part.
fn one_part(name: &str, stencil: &[u8], text: &str) {
    let m = five_cells();
    let field = five_values(text);
    first_points(name, &m, 1, b"\x01\x01\x01\x01\x01", 1, stencil, &field);
}

// The triangles, from 3 6 10: 15 and 17 share a point and no edge.
fn triangle_points(name: &str, parts: u32, owners: &[u8], i: u32, stencil: &[u8]) {
    let m = triangles();
    let mut field = [0u8; 12];
    put_words(&mut field, "0 3 0 6 0 10");
    first_points(name, &m, parts, owners, i, stencil, &field);
}

// From -1 -2 0 0 0. The stencil 1 goes nowhere, so a point between two cells is refused.
fn reached_points() {
    one_part(
        "five cells as one part, stencil 1 0 1",
        &STENCIL,
        "65535 65535 65535 65534",
    );
    one_part(
        "five cells as one part, stencil 1",
        b"\x01",
        "65535 65535 65535 65534",
    );
    triangle_points(
        "triangles as one part, stencil 2 0 2",
        1,
        b"\x01\x01\x01",
        1,
        b"\x02\x00\x02",
    );
}

fn unreached_points() {
    triangle_points(
        "triangles, part 1 of 2, stencil 2 1 2",
        2,
        b"\x01\x01\x02",
        1,
        b"\x02\x01\x02",
    );
    triangle_points(
        "triangles, part 2 of 2, stencil 2 1 2",
        2,
        b"\x01\x01\x02",
        2,
        b"\x02\x01\x02",
    );
}

// One cell between two points.
fn one_cell() {
    let mut m = [0u8; 26];
    put_words(&mut m, "1 2 1 0 0 2 0 0 1 1 2 2 0");
    first_points(
        "one cell, stencil 1",
        &m,
        1,
        b"\x01",
        1,
        b"\x01",
        b"\x00\x00\x01\x2c",
    );
}

// The second of two cells has no point.
fn no_point() {
    let mut m = [0u8; 22];
    put_words(&mut m, "1 1 2 0 0 1 0 1 0 1 0");
    first_points(
        "a cell without a point, part 2 of 2",
        &m,
        2,
        b"\x01\x02",
        2,
        b"\x01",
        b"\x00\x00\x01\x2c\x00\x00\x01\x90",
    );
}

// ---- gaps (F-2), whose words are 32768 and 0

fn points_of_gaps() {
    one_part(
        "five cells as one part, 100 gap 300 gap gap",
        &STENCIL,
        "0 100 32768 0 0 300 32768 0 32768 0",
    );
    one_part(
        "five cells as one part, five gaps",
        &STENCIL,
        "32768 0 32768 0 32768 0 32768 0 32768 0",
    );
}

// ---- rounding (F-4): -1,200,000 and one more, beside cells of 0

fn least_depths() {
    one_part(
        "five cells as one part, -1200000 -1199999 0 0 0",
        &STENCIL,
        "65517 45184 65517 45185",
    );
}

fn main() {
    short_points();
    reached_points();
    unreached_points();
    one_cell();
    no_point();
    points_of_gaps();
    least_depths();
}
