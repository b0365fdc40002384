// What the programs that run the examples share: how an answer is printed, and the inputs. No part of the engine: nothing is
// promised of these functions but that they end without a fault.
#![tactic(auto)]

ghost use Rattle.std.specs.Prelude.{◌<◌};

use layout::{Refusal, byte_at, word_at};
use std::convert::AsSlice;
use std::fmt::{self, Write};

pub const OWNERS: [u8; 5] = [1, 1, 1, 2, 2];

pub const STENCIL: [u8; 3] = [1, 0, 1];

pub const WEIGHTS: [u8; 4] = [0, 2, 0, 1];

// ---- printing

// Standard output, by the kit's crate `io`: for `println!` each function would take the runtime and hand it on.
#[derive(Drop)]
struct Output;

impl fmt::Write for Output {
    // A piece that the output does not take is lost, and the next one is tried.
    fn write_str(&mut self, s: &str) -> fmt::Result {
        io::write_all(1, s.as_bytes());
        Ok(())
    }
}

// Prints a text, each piece of it for itself.
pub fn print(text: impl fmt::Display + Drop) {
    let _ = write!(Output, "{text}");
}

// A depth, or a gap, which is the least number.
#[derive(Clone, Copy)]
struct Depth(i32);

impl fmt::Display for Depth {
    fn fmt<W: fmt::Write>(&self, f: &mut fmt::Formatter<W>) -> fmt::Result {
        match self.0 {
            i32::MIN => write!(f, "gap"),
            depth if depth < 0 => write!(f, "-{}", depth.unsigned_abs()),
            depth => write!(f, "{depth}"),
        }
    }
}

// The depth in two words.
fn depth_of(high: usize, low: usize) -> Depth
    requires { (high < 65536) × (low < 65536) }
{
    Depth(((high * 65536 + low) as u32).cast_signed())
}

// How the values that a call gave are printed, each by its number: words,
pub fn print_word(out: &[u8], i: u32) {
    print(word_at(out, i as usize));
}

// depths,
pub fn print_depth(out: &[u8], i: u32) {
    let k = 2 * i as usize;
    print(depth_of(word_at(out, k), word_at(out, k + 1)));
}

// the bytes of a message,
pub fn print_byte(out: &[u8], i: u32) {
    io::print_hex(1, u64::from(byte_at(out, i as usize)), 2);
}

// and points, each as its number and its depth.
pub fn print_point(out: &[u8], i: u32) {
    let k = 3 * i as usize;
    let depth = depth_of(word_at(out, k + 1), word_at(out, k + 2));
    print(format_args!("{}:{depth}", word_at(out, k)));
}

// How what a call gave is printed, by a kind. A function in its place has to come with the promise that it can be called, as in `say_all`.
#[derive(Clone, Copy)]
pub enum Form {
    Words,
    Depths,
    Bytes,
    Points,
}

fn print_value(form: Form, out: &[u8], i: u32) {
    match form {
        Form::Words => print_word(out, i),
        Form::Depths => print_depth(out, i),
        Form::Bytes => print_byte(out, i),
        Form::Points => print_point(out, i),
    }
}

// The first n values.
pub fn print_values(form: Form, out: &[u8], n: u32) {
    for i in 0..n {
        print(" ");
        print_value(form, out, i);
    }
}

// Prints the name, whose bytes may be any, and the answer, whose refusal is of any type that gives a number; gives the count, and 0 for a refusal.
pub fn print_answer<N: AsSlice<u8> + Drop, E: Into<u32>>(name: N, a: Result<u32, E>) -> u32 {
    io::write_all(1, name.as_slice());
    match a {
        Ok(count) => {
            print(format_args!(": count {count}"));
            count
        }
        Err(refusal) => {
            let number: u32 = refusal.into();
            print(format_args!(": refused {number}"));
            0
        }
    }
}

pub fn say<N: AsSlice<u8> + Drop, E: Into<u32>>(name: N, a: Result<u32, E>) {
    print_answer(name, a);
    print("\n");
}

// The answer and the values that it counts.
pub fn say_form<N: AsSlice<u8> + Drop, E: Into<u32>>(
    form: Form,
    name: N,
    a: Result<u32, E>,
    out: &[u8],
) {
    let n = print_answer(name, a);
    if n != 0 {
        print(":");
    }
    print_values(form, out, n);
    print("\n");
}

// The same by any function that prints the value of a number.
pub fn say_all<F: Fn(&[u8], u32)>(name: &str, a: Result<u32, Refusal>, out: &[u8], print_value: F)
    requires { F.IsAlwaysCallable print_value }
{
    let n = print_answer(name, a);
    if n != 0 {
        print(":");
    }
    for i in 0..n {
        print(" ");
        print_value(out, i);
    }
    print("\n");
}

// ---- inputs

// Stores word i of m, if there is one.
pub fn set_word(m: &mut [u8], i: usize, v: usize) {
    if i < m.len() / 2 {
        m[2 * i..2 * i + 2].copy_from_slice(&((v % 65536) as u16).to_be_bytes());
    }
}

// The number that these digits write, modulo 65536.
fn number_of(digits: &[u8]) -> u16 {
    digits.iter().fold(
        0,
        |number: u16, digit| number
            .wrapping_mul(10)
            .wrapping_add(u16::from(*digit).wrapping_sub(48)),
    )
}

// Puts the words of a text, in decimal, as many as fit. A byte below that of the digit 0 ends a word.
pub fn put_words<T: AsSlice<u8> + Drop>(m: &mut [u8], text: T) {
    for (i, word) in text.as_slice().split(|c| *c < 48).enumerate() {
        set_word(m, i, usize::from(number_of(word)));
    }
}

// "d = 1; counts 6, 5, 0, 0; R = 10. Heads: six zeros, then 1, 3, 5, 7, 9. Records: (1,2) (2,0) .."
pub fn put_five(m: &mut [u8]) {
    put_words(
        m,
        "1 6 5 0 0 10 0 0 0 0 0 0 1 3 5 7 9 1 2 2 0 2 4 3 0 3 6 4 0 4 8 5 0 5 10 6 0",
    );
}

pub fn five_cells() -> [u8; 74] {
    let mut m = [0u8; 74];
    put_five(&mut m);
    m
}

// The values of the five cells: each is two words of the text, the high one first.
pub fn five_values<T: AsSlice<u8> + Drop>(text: T) -> [u8; 20] {
    let mut field = [0u8; 20];
    put_words(&mut field, text);
    field
}

// "Triangles 15 (points 1 2 3), 16 (2 3 4), 17 (1 5 6), edges 7 to 14"
pub fn triangles() -> [u8; 182] {
    let mut m = [0u8; 182];
    // the heads and the edges' records, and then those of the triangles
    put_words(
        &mut m,
        "2 6 8 3 0 34 0 0 0 0 0 0 1 3 5 7 9 11 13 15 17 23 29 1 2 2 0 2 4 3 0 1 6 3 0 2 8 4 0 3 10 4 0 1 12 5 0 5 14 6 0 1 16 6 0",
    );
    put_words(
        &mut m[110..],
        "1 18 2 19 3 20 7 21 8 22 9 0 2 24 3 25 4 26 8 27 10 28 11 0 1 30 5 31 6 32 12 33 13 34 14 0",
    );
    m
}
