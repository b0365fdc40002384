// Runs the examples of the specification on the compiled calls on states: a run of two parts, the last rounds, wrong calls, and a gap that is taken.
// Each line names an example and prints what its call answered: the count and what it gave, or the number of the refusal. The file `stdout` has these
// lines, to be read beside the specification.
#![tactic(auto)]

use layout::word_at;
use vectors_print::{
    Form, OWNERS, STENCIL, WEIGHTS, five_cells, five_values, print, print_answer, print_values,
    put_words, say, say_form, set_word,
};

// What part 1 of the five cells needs, and enough for part 2; and what a message of one depth needs.
type State = [u8; 224];

type Message = [u8; 12];

fn start(name: &str, i: u32, b: &mut State) {
    let m = five_cells();
    let field = five_values("0 100 0 200 0 300 0 400 0 500");
    let a = part_start::start(&m, 2, &OWNERS, i, &STENCIL, 1, &WEIGHTS, &field, b);
    say(name, a);
}

fn write(name: &str, b: &mut State, to: u32, message: &mut Message) {
    let a = part_write::write(b, to, message);
    say_form(Form::Bytes, name, a, message);
}

// Writes a message that no part takes.
fn write_only(name: &str, b: &mut State, to: u32) {
    let mut message = [0u8; 12];
    write(name, b, to, &mut message);
}

fn take_bytes(name: &str, b: &mut State, bytes: &[u8]) {
    say(name, part_take::take(b, bytes));
}

fn take(name: &str, b: &mut State, message: &Message) {
    take_bytes(name, b, message);
}

fn advance(name: &str, b: &mut State) {
    say(name, part_advance::advance(b));
}

fn collect(name: &str, b: &State, round: u32) {
    let mut field = [0u8; 20];
    let a = part_collect::collect(b, round, &mut field);
    print_answer(name, a);
    print(":");
    print_values(Form::Depths, &field, 5);
    print("\n");
}

// The points of a state, into as much room as part 1 needs.
fn points(name: &str, b: &State) {
    let mut out = [0u8; 24];
    let a = part_points::points(b, &mut out);
    say_form(Form::Points, name, a, &out);
}

fn started(one: &mut State, two: &mut State) {
    start("start of part 1", 1, one);
    start("start of part 2", 2, two);
    collect("part 1 at round 0", one, 0);
    collect("part 2 for round 1 at round 0", two, 1);
    points("points of part 1, nothing taken", one);
}

fn before(two: &mut State, old: &mut Message) {
    write("part 2 to part 1", two, 1, old);
    take("part 2 takes its own message", two, old);
    advance("part 2 advances, nothing taken", two);
}

// Part 2 goes on to round 1, and part 1 is behind.
fn ahead(one: &mut State, two: &mut State, next: &mut Message) {
    write("part 1 to part 2", one, 2, next);
    take("part 2 takes it", two, next);
    take("part 2 takes it again", two, next);
    points("points of part 2", two);
}

fn first(two: &mut State, next: &mut Message) {
    advance("part 2 advances", two);
    write("part 2 to part 1, round 1", two, 1, next);
}

fn behind(one: &mut State, old: &Message, next: &Message) {
    take("part 1 takes the message for round 1", one, next);
    take("part 1 takes the one for round 0", one, old);
    points("points of part 1", one);
    advance("part 1 advances", one);
}

fn again(one: &mut State, next: &Message) {
    take("part 1 takes the message for round 1", one, next);
    points("points of part 1, round 1", one);
    advance("part 1 advances, nothing written", one);
}

fn second(one: &mut State, two: &mut State) {
    let mut message = [0u8; 12];
    write("part 1 to part 2, round 1", one, 2, &mut message);
    take("part 2 takes it", two, &message);
    points("points of part 2, round 1", two);
    advance("part 1 advances", one);
    advance("part 2 advances", two);
}

fn collected(one: &State, two: &State) {
    collect("part 1 at round 2", one, 2);
    collect("part 2 at round 2", two, 2);
}

fn runs() {
    let mut one = [0u8; 224];
    let mut two = [0u8; 224];
    let mut old = [0u8; 12];
    let mut next = [0u8; 12];
    started(&mut one, &mut two);
    before(&mut two, &mut old);
    ahead(&mut one, &mut two, &mut next);
    first(&mut two, &mut next);
    behind(&mut one, &old, &next);
    again(&mut one, &next);
    second(&mut one, &mut two);
    collected(&one, &two);
}

// The round stands after the lists, whose length in words is word 0.
fn set_round(b: &mut State, round: usize) {
    let at = word_at(b, 0);
    set_word(b, at, round);
}

// A message of six words.
fn take_words(name: &str, b: &mut State, text: &str) {
    let mut message = [0u8; 12];
    put_words(&mut message, text);
    take(name, b, &message);
}

fn last_rounds() {
    let mut b = [0u8; 224];
    start("start of part 1", 1, &mut b);
    write_only("part 1 to part 2", &mut b, 2);
    take_words("part 1 takes", &mut b, "2 1 0 1 0 400");
    set_round(&mut b, 60000);
    advance("part 1 advances at round 60,000", &mut b);
    set_round(&mut b, 59999);
    advance("part 1 advances at round 59,999", &mut b);
}

fn wrong_parts(b: &mut State) {
    advance("advance of zeros", b);
    start("start of part 1", 1, b);
    write_only("part 1 to part 3", b, 3);
    write_only("part 1 to part 1", b, 1);
}

fn wrong_messages(b: &mut State) {
    take_bytes("take 7 bytes", b, b"\x00\x02\x00\x01\x00\x00\x00");
    take_words("take count 2 in 12 bytes", b, "2 1 0 2 0 400");
    take_words("take depth 1,200,001", b, "2 1 0 1 18 20353");
}

fn wrong_senders(b: &mut State) {
    take_words("take from part 3", b, "3 1 0 1 0 400");
    take_bytes("take count 0", b, b"\x00\x02\x00\x01\x00\x00\x00\x00");
}

fn wrong_calls() {
    let mut b = [0u8; 224];
    wrong_parts(&mut b);
    wrong_messages(&mut b);
    wrong_senders(&mut b);
}

// ---- gaps (F-2), whose words are 32768 and 0

// The copy of cell 4 is a gap.
fn take_gap() {
    let mut b = [0u8; 224];
    start("start of part 1", 1, &mut b);
    write_only("part 1 to part 2", &mut b, 2);
    take_words("take 80 00 00 01", &mut b, "2 1 0 1 32768 1");
    take_words("take a gap", &mut b, "2 1 0 1 32768 0");
    points("points of part 1", &b);
    advance("part 1 advances", &mut b);
    collect("part 1 at round 1", &b, 1);
}

fn main() {
    runs();
    last_rounds();
    wrong_calls();
    take_gap();
}
