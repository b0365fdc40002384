// Runs the examples of the specification on the compiled call check mesh, and its refusals 1 to 7. Each line names an example and prints what its
// call answered: the count and what it gave, or the number of the refusal. The file `stdout` has these lines, to be read beside the specification.
#![tactic(auto)]

use vectors_print::{five_cells, put_five, say, set_word, triangles};

fn check_cut(name: &str, m: &mut [u8]) {
    put_five(m);
    say(name, mesh_valid::check_mesh(m));
}

fn check_edited(name: &str, m: &mut [u8], i: usize, v: usize) {
    set_word(m, i, v);
    say(name, mesh_valid::check_mesh(m));
}

// The five cells with word i changed.
fn edited(name: &str, i: usize, v: usize) {
    let mut m = five_cells();
    check_edited(name, &mut m, i, v);
}

fn lengths() {
    let mut m = [0u8; 73];
    check_cut("73 bytes", &mut m);
    let mut head = [0u8; 11];
    check_cut("11 bytes", &mut head);
}

fn heads() {
    edited("five cells", 0, 1);
    edited("d 0", 0, 0);
    edited("d 4", 0, 4);
    edited("a count above d", 3, 1);
    edited("no points", 1, 0);
}

fn sizes() {
    edited("N 2,001", 1, 1996);
    edited("N 2,000, of another length", 1, 1995);
    edited("R 12,001", 5, 12001);
    edited("R 12,000, of another length", 5, 12000);
}

fn chains() {
    edited("a head above R", 12, 11);
    edited("a next above R", 18, 11);
    edited("a point with a head", 6, 1);
    edited("a record met twice", 20, 1);
}

fn elements() {
    edited("element 0", 17, 0);
    edited("an element above N", 17, 12);
    edited("a cell in a cell's chain", 17, 7);
    edited("an element twice in a chain", 17, 2);
    edited("point 1 in no cell's chain", 17, 3);
}

fn closures() {
    let mut m = triangles();
    check_edited("triangles", &mut m, 0, 2);
    let mut n = triangles();
    check_edited("a triangle without a point of its edge", &mut n, 55, 4);
}

// The last cell loses its first record, which may then hold anything.
fn ignored() {
    let mut m = five_cells();
    set_word(&mut m, 16, 10);
    check_edited("a record in no chain", &mut m, 33, 65535);
}

fn main() {
    lengths();
    heads();
    sizes();
    chains();
    elements();
    closures();
    ignored();
}
