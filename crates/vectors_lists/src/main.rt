// Runs the examples of the specification on the compiled list calls, and their refusals 8 to 10. Each line names an example and prints what its call
// answered: the count and what it gave, or the number of the refusal. The file `stdout` has these lines, to be read beside the specification.
#![tactic(auto)]

use layout::Refusal;
use vectors_print::{Form, OWNERS, STENCIL, five_cells, print, say, say_form, triangles};

// What a list call gives on the five cells.
fn show<F: FnOnce(&[u8], &mut [u8]) -> Result<u32, Refusal>>(name: &str, call: F)
    requires { F.IsAlwaysCallable call }
{
    let m = five_cells();
    let mut out = [0u8; 10];
    let a = call(&m, &mut out);
    say_form(Form::Words, name, a, &out);
}

fn cells(i: u32) {
    show(
        "interior",
        |m, out| split_lists::interior(m, 2, &OWNERS, i, &STENCIL, out),
    );
    show(
        "halo",
        |m, out| split_lists::halo(m, 2, &OWNERS, i, &STENCIL, out),
    );
    show(
        "local order",
        |m, out| split_lists::local_order(m, 2, &OWNERS, i, &STENCIL, out),
    );
}

fn passing(i: u32, j: u32) {
    show(
        "imports",
        |m, out| split_lists::imports(m, 2, &OWNERS, i, &STENCIL, j, out),
    );
    show(
        "exports",
        |m, out| split_lists::exports(m, 2, &OWNERS, i, &STENCIL, j, out),
    );
}

fn points(i: u32) {
    show(
        "private points",
        |m, out| split_lists::private_range(m, 2, &OWNERS, i, &STENCIL, 0, out),
    );
    show(
        "exposed points",
        |m, out| split_lists::exposed_range(m, 2, &OWNERS, i, &STENCIL, 0, out),
    );
    show(
        "shared points",
        |m, out| split_lists::shared_range(m, 2, &OWNERS, i, &STENCIL, 0, out),
    );
    show(
        "copied points",
        |m, out| split_lists::copied_range(m, 2, &OWNERS, i, &STENCIL, 0, out),
    );
}

// The lists of part i, beside part j.
fn lists(i: u32, j: u32) {
    print(format_args!("lists of part {i}\n"));
    cells(i);
    passing(i, j);
    points(i);
}

fn interior(name: &str, parts: u32, owners: &[u8], i: u32, stencil: &[u8]) {
    show(
        name,
        |m, out| split_lists::interior(m, parts, owners, i, stencil, out),
    );
}

fn part(name: &str, parts: u32, i: u32) {
    interior(name, parts, &OWNERS, i, &STENCIL);
}

fn numbers() {
    part("P 0", 0, 1);
    part("P 17", 17, 1);
    part("part 0", 2, 0);
    part("part 3 of 2", 2, 3);
}

fn map(name: &str, owners: &[u8]) {
    interior(name, 2, owners, 1, &STENCIL);
}

fn maps() {
    map("owners 0 1 1 2 2", b"\x00\x01\x01\x02\x02");
    map("owners 3 1 1 2 2", b"\x03\x01\x01\x02\x02");
    map("four owners", b"\x01\x01\x02\x02");
    map("owners 1 1 1 1 1", b"\x01\x01\x01\x01\x01");
}

fn stencil(name: &str, stencil: &[u8]) {
    interior(name, 2, &OWNERS, 1, stencil);
}

fn lengths_of_stencils() {
    stencil("interior, stencil 1", b"\x01");
    stencil("stencil of length 0", b"");
    stencil("stencil of length 2", b"\x01\x00");
    stencil(
        "stencil of length 9",
        b"\x01\x00\x01\x00\x01\x00\x01\x00\x01",
    );
}

fn stencils() {
    stencil(
        "stencil of length 11",
        b"\x01\x00\x01\x00\x01\x00\x01\x00\x01\x00\x01",
    );
    stencil("stencil 0 0 1", b"\x00\x00\x01");
    stencil("stencil 1 1 1", b"\x01\x01\x01");
}

fn no_imports() {
    let m = five_cells();
    let mut out = [0u8; 10];
    let a = split_lists::imports(&m, 2, &OWNERS, 1, b"\x01", 2, &mut out);
    say("imports, stencil 1", a);
}

// Each triangle has a part of its own; a part imports what its triangle reaches.
fn reached(name: &str, i: u32, j: u32) {
    let m = triangles();
    let mut out = [0u8; 6];
    let a = split_lists::imports(
        &m,
        3,
        b"\x01\x02\x03",
        i,
        b"\x02\x01\x02\x00\x02",
        j,
        &mut out,
    );
    say_form(Form::Words, name, a, &out);
}

fn reaches() {
    reached("15 reaches 16", 1, 2);
    reached("15 reaches 17", 1, 3);
    reached("16 reaches 15", 2, 1);
}

fn other_reaches() {
    reached("16 reaches 17", 2, 3);
    reached("17 reaches 15", 3, 1);
    reached("17 does not reach 16", 3, 2);
}

fn main() {
    lists(1, 2);
    lists(2, 1);
    numbers();
    maps();
    lengths_of_stencils();
    stencils();
    no_imports();
    reaches();
    other_reaches();
}
