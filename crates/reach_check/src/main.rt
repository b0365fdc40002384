// Reads a byte stencil length, the stencil and a mesh from standard input, and prints for each cell the cells of its reach, each with its layer,
// or the number of the refusal. No accepted mesh is longer than 52,012 bytes.
#![tactic(auto)]

ghost use Rattle.std.specs.Prelude.{◌≡◌, ◌<◌, false};
ghost use Rattle.mesh.specs.Accepted.{Accepted};
ghost use Rattle.mesh.specs.Mesh.{top};
ghost use Rattle.mesh.specs.Walks.{bad10};

use layout::limits::{ELEMENT_PLACES, RECORD_PLACES, TABLE_BYTES};
use layout::{Refusal, byte_at};
use mesh::inner::{cell_count, first_cell, top_of};
use mesh_valid::test_mesh;
use walk_reach_table::inner::{ReachTable, reach_table};
use walk_stencil::bad_stencil;

// Printed by the calls of `io`, as all here: formats would need the runtime in each function, or a writer of this program's own.
fn refuse(refusal: Refusal) {
    io::write_all(1, b"refused ");
    io::print_decimal(1, u64::from(u32::from(refusal)));
    io::write_all(1, b"\n");
}

// One line: the cell at place q, and the entries of its reach.
fn print_row(first: usize, q: usize, reaches: &ReachTable)
    requires { (first < 65536) × (q < 65536) }
{
    io::print_decimal(1, (first + q) as u64);
    io::write_all(1, b":");
    for t in reaches.start(q)..reaches.end(q) {
        io::write_all(1, b" ");
        io::print_decimal(1, (first + reaches.place(t)) as u64);
        io::write_all(1, b"/");
        io::print_decimal(1, reaches.layer(t) as u64);
    }
    io::write_all(1, b"\n");
}

fn print_rows(first: usize, cells: usize, reaches: &ReachTable)
    requires { (first < 65536) × (cells < 65536) }
{
    for q in 0..cells {
        print_row(first, q, reaches);
    }
}

fn print_reaches(m: &[u8], stencil: &[u8])
    requires { Accepted m.now × (bad10 (top m.now) stencil.now ≡ false) }
{
    let mut cell = [0; RECORD_PLACES];
    let mut reaches = ReachTable {
        entries: [0; TABLE_BYTES],
        ends: [0; ELEMENT_PLACES],
    };
    if reach_table(m, stencil, &mut cell, &mut reaches).is_none() {
        refuse(Refusal::Reach);
    } else {
        print_rows(first_cell(m), cell_count(m), &reaches);
    }
}

fn answer(stencil: &[u8], m: &[u8]) {
    if let Err(refusal) = test_mesh(m) {
        refuse(refusal);
    } else if bad_stencil(top_of(m), stencil) {
        refuse(Refusal::Stencil);
    } else {
        print_reaches(m, stencil);
    }
}

// Parts the input: a stencil length, the stencil, the mesh.
fn parted(input: &[u8]) {
    let end = 1 + byte_at(input, 0) as usize;
    match input.split_at_checked(end) {
        Some((head, m)) => answer(&head[1..], m),
        None => {
            io::write_all(1, b"too short\n");
        }
    }
}

fn main() {
    let mut buffer = [0u8; 65536];
    let n = io::read_full(0, &mut buffer);
    parted(&buffer[..n]);
}
