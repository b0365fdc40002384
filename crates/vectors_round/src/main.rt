// Runs the examples of the specification and of the requests (F-2, F-4) on the compiled undivided round. Each line names an example and prints what its
// call answered: the count and what it gave, or the number of the refusal. The file `stdout` has these lines, to be read beside them.
#![tactic(auto)]

use vectors_print::{
    Form, STENCIL, WEIGHTS, five_cells, five_values, print, print_values, say_form, triangles,
};

// ---- rounds

// Makes a round of the five cells.
fn round_of(name: &str, kind: u32, weights: &[u8], field: &[u8], out: &mut [u8]) {
    let m = five_cells();
    print(format_args!("{name} of"));
    print_values(Form::Depths, field, 5);
    let a = round::undivided_round(&m, &STENCIL, kind, weights, field, out);
    say_form(Form::Depths, "", a, out);
}

// A round of the values of a text.
fn one_round(name: &str, kind: u32, weights: &[u8], text: &str) {
    let field = five_values(text);
    let mut out = [0u8; 20];
    round_of(name, kind, weights, &field, &mut out);
}

// Weights 2 and 1.
fn mean(text: &str) {
    one_round("mean 2 1", 1, &WEIGHTS, text);
}

// A rule with no weights.
fn bare(name: &str, kind: u32, text: &str) {
    one_round(name, kind, b"", text);
}

fn rounds() {
    mean("0 100 0 200 0 300 0 400 0 500");
    mean("0 133 0 200 0 300 0 400 0 466");
    bare("hold", 0, "0 155 0 208 0 300 0 391 0 444");
    bare("shoalest", 2, "0 155 0 208 0 300 0 391 0 444");
}

// ---- rounding (F-4)

// Weights 1 and 3, which are 4 at the first cell.
fn mean_of_four(text: &str) {
    one_round("mean 1 3", 1, b"\x00\x01\x00\x03", text);
}

// The sum of the first cell is -7, 7, -8 and 0.
fn sums_over_four() {
    mean_of_four("65535 65535 65535 65534");
    mean_of_four("0 1 0 2");
    mean_of_four("65535 65534 65535 65534");
    mean_of_four("0 3 65535 65535");
}

// The sum of the second cell is -1, of weights 15.
fn least_sum() {
    one_round("mean 13 1", 1, b"\x00\x0d\x00\x01", "65535 65535");
}

// The five cells above the water, and the bytes of the first one.
fn above_the_water() {
    let field = five_values("65535 65436 65535 65336 65535 65236 65535 65136 65535 65036");
    let mut out = [0u8; 20];
    round_of("mean 2 1", 1, &WEIGHTS, &field, &mut out);
    print("its first four bytes:");
    print_values(Form::Bytes, &out, 4);
    print("\n");
}

// ---- rules and depths: 11, 14

// A rule on a field of zeros.
fn rule(name: &str, kind: u32, weights: &[u8]) {
    one_round(name, kind, weights, "");
}

fn counts_of_weights() {
    rule("kind 3", 3, b"");
    rule("mean 2", 1, b"\x00\x02");
    rule("mean 2 1 1", 1, b"\x00\x02\x00\x01\x00\x01");
}

fn weights() {
    rule("mean 0 1", 1, b"\x00\x00\x00\x01");
    rule("mean 1 16", 1, b"\x00\x01\x00\x10");
    rule("mean 1 15", 1, b"\x00\x01\x00\x0f");
    rule("hold with weights", 0, &WEIGHTS);
}

// 1,200,000 and one more, -1,200,000 and one less
fn depths() {
    bare("hold", 0, "18 20352");
    bare("hold", 0, "18 20353");
    bare("hold", 0, "65517 45184");
    bare("hold", 0, "65517 45183");
}

// ---- gaps (F-2), whose words are 32768 and 0

fn means_of_gaps() {
    mean("0 100 32768 0 0 300 32768 0 32768 0");
    mean("0 100 0 200 0 300 0 300 32768 0");
    one_round(
        "mean 1 0",
        1,
        b"\x00\x01\x00\x00",
        "0 100 32768 0 0 300 32768 0 32768 0",
    );
}

fn other_rules_on_gaps() {
    bare("shoalest", 2, "0 100 32768 0 0 300 32768 0 32768 0");
    bare("shoalest", 2, "0 100 0 100 0 300 0 300 32768 0");
    bare("hold", 0, "0 100 32768 0 0 300 32768 0 32768 0");
    bare("hold", 0, "32768 1");
}

// ---- fields and room: 14, 16

fn fields() {
    let field = [0u8; 19];
    let mut out = [0u8; 20];
    round_of("19 bytes", 0, b"", &field, &mut out);
}

fn room() {
    let field = [0u8; 20];
    let mut out = [0u8; 19];
    round_of("into 19 bytes", 0, b"", &field, &mut out);
}

// Layers 0, 2 and 4 weigh 4, 2 and 1: 15 and 16 take 700 / 7, and 17, which does not reach 16, takes 4 * 700 / 5.
fn layers() {
    let m = triangles();
    let mut out = [0u8; 12];
    let a = round::undivided_round(
        &m,
        b"\x02\x01\x02\x00\x02",
        1,
        b"\x00\x04\x00\x02\x00\x01",
        b"\x00\x00\x00\x00\x00\x00\x00\x00\x00\x00\x02\xbc",
        &mut out,
    );
    say_form(Form::Depths, "triangles, mean 4 2 1 of 0 0 700", a, &out);
}

fn main() {
    rounds();
    sums_over_four();
    least_sum();
    above_the_water();
    counts_of_weights();
    weights();
    depths();
    means_of_gaps();
    other_rules_on_gaps();
    fields();
    room();
    layers();
}
