// A chain is followed inside the lent mesh bytes, one record at a time. The functions over the reader, a struct that holds a reference, are few and
// thin. All else calls `read_record` and `is_empty`, whose parameters are plain.
ghost use Rattle.std.specs.Prelude.{◌≡◌, ◌<◌, eqb};
ghost use Rattle.mesh.specs.Mesh.{elements, head_of, element_in, next_of};

use crate::inner::head_of;
use layout::word_at;

// The element of record i, and its next record, in a mesh of n elements.
fn element_in(m: &[u8], n: usize, i: usize) -> usize
    requires { (n ≡ elements m.now) × (n < 4294967296) × (i < 65536) }
    ensures { (result ≡ element_in m.now i) × (result < 65536) }
{
    word_at(m, 4 + n + 2 * i)
}

fn next_of(m: &[u8], n: usize, i: usize) -> usize
    requires { (n ≡ elements m.now) × (n < 4294967296) × (i < 65536) }
    ensures { (result ≡ next_of m.now i) × (result < 65536) }
{
    word_at(m, 5 + n + 2 * i)
}

// Stands at one record of a chain. Index 0 is the chain's end.
#[derive(Clone, Copy)]
pub struct ChainReader<'a> {
    pub mesh: &'a [u8],
    pub index: usize,
}

// A reader at a record.
fn at_record<'a>(mesh: &'a [u8], index: usize) -> ChainReader<'a>
    ensures { (result.mesh ≡ mesh.entry) × (result.index ≡ index) }
{
    ChainReader { mesh, index }
}

// A reader at the head of the chain of element e.
fn at_head<'a>(mesh: &'a [u8], e: usize) -> ChainReader<'a>
    requires { e < 4294967296 }
    ensures { (result.mesh ≡ mesh.entry) × (result.index ≡ head_of mesh.now e) }
{
    ChainReader {
        mesh,
        index: head_of(mesh, e),
    }
}

// Whether the chain has ended.
fn finished<'a>(c: ChainReader<'a>) -> bool
    ensures { result ≡ eqb c.entry.index 0 }
{
    c.index == 0
}

// The record at which it stands.
fn record_of<'a>(c: ChainReader<'a>) -> usize
    ensures { result ≡ c.entry.index }
{
    c.index
}

// The element of that record, in a mesh of n elements.
fn element_of<'a>(c: ChainReader<'a>, n: usize) -> usize
    requires { (n ≡ elements c.mesh.now) × (n < 4294967296) × (c.index < 65536) }
    ensures { (result ≡ element_in c.entry.mesh.now c.entry.index) × (result < 65536) }
{
    element_in(c.mesh, n, c.index)
}

// The reader at the next record.
fn moved_on<'a>(c: ChainReader<'a>, n: usize) -> ChainReader<'a>
    requires { (n ≡ elements c.mesh.now) × (n < 4294967296) × (c.index < 65536) }
    ensures { (result.mesh ≡ c.entry.mesh) × (result.index ≡ next_of c.entry.mesh.now c.entry.index) × (result.index < 65536) }
{
    ChainReader {
        mesh: c.mesh,
        index: next_of(c.mesh, n, c.index),
    }
}

// A record: an element, and the index of the next record of the chain.
#[derive(Clone, Copy)]
pub struct Record {
    pub element: usize,
    pub next: usize,
}

// Record i of a chain, in a mesh of n elements.
pub fn read_record(m: &[u8], n: usize, i: usize) -> Record
    requires { (n ≡ elements m.now) × (n < 4294967296) × (i < 65536) }
    ensures { (result.element ≡ element_in m.now i) × (result.element < 65536) × (result.next ≡ next_of m.now i) × (result.next < 65536) }
{
    let c = at_record(m, i);
    Record {
        element: element_of(c, n),
        next: record_of(moved_on(c, n)),
    }
}

// Whether the chain of element e is empty.
pub fn is_empty(m: &[u8], e: usize) -> bool
    requires { e < 4294967296 }
    ensures { result ≡ eqb (head_of m.now e) 0 }
{
    finished(at_head(m, e))
}
