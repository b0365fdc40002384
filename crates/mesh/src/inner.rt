// What is read of the mesh bytes. A word past the end reads as 0, so none of these functions supposes that the mesh was accepted.
ghost use Rattle.std.specs.Prelude.{◌≡◌, ◌+◌, ◌*◌, ◌<◌, ◌≤◌};
ghost use Rattle.mesh.specs.Mesh.{top, counted, below, elements, record_count, first_cell, cell_count, head_of};

pub use crate::reader::{Record, is_empty, read_record};
use layout::word_at;

// The dimension of the cells.
pub fn top_of(m: &[u8]) -> usize
    ensures { (result ≡ top m.now) × (result < 65536) }
{
    word_at(m, 0)
}

// How many elements have dimension k.
pub fn count_of(m: &[u8], k: usize) -> usize
    requires { k < 65536 }
    ensures { (result ≡ counted m.now k) × (result < 65536) }
{
    word_at(m, k + 1)
}

// How many elements have a dimension below k.
pub fn below_of(m: &[u8], k: usize) -> usize
    requires { k < 65536 }
    ensures { (result ≡ below m.now k) × (result ≤ 65536 * k) }
{
    (0..k).map(|j| count_of(m, j)).sum()
}

// The count of all elements.
pub fn elements_of(m: &[u8]) -> usize
    ensures { (result ≡ elements m.now) × (result ≤ 262144) }
{
    below_of(m, 4)
}

// The count of records.
pub fn record_count(m: &[u8]) -> usize
    ensures { (result ≡ record_count m.now) × (result < 65536) }
{
    word_at(m, 5)
}

// The number of the first cell, and the count of cells.
pub fn first_cell(m: &[u8]) -> usize
    ensures { result ≡ first_cell m.now }
{
    below_of(m, top_of(m)) + 1
}

pub fn cell_count(m: &[u8]) -> usize
    ensures { (result ≡ cell_count m.now) × (result < 65536) }
{
    count_of(m, top_of(m))
}

// The head of element e.
pub fn head_of(m: &[u8], e: usize) -> usize
    requires { e < 4294967296 }
    ensures { (result ≡ head_of m.now e) × (result < 65536) }
{
    word_at(m, 5 + e)
}
