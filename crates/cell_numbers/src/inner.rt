// Where a cell stands among the mesh's cells, whose numbers follow each other from `first` on.
ghost use Rattle.std.specs.Prelude.{◌≡◌, ◌&&◌, ◌+◌, ◌-◌, ◌<◌, ◌≤◌, leb, ltb};

use crate::Global;

// The cell at an index, from 0.
pub fn cell_at(first: usize, index: usize) -> Global
    requires { first + index < 65536 }
    ensures { result.0 ≡ first + index }
{
    Global((first + index) as u16)
}

// The index of a cell.
pub fn index_of(c: Global, first: usize) -> usize
    requires { first ≤ c.0 }
    ensures { (result ≡ c.0 - first) × (result < 65536) }
{
    c.0 as usize - first
}

// Whether a number is that of one of the cells.
pub fn is_cell(c: Global, first: usize, cells: usize) -> bool
    requires { (first < 65536) × (cells < 65536) }
    ensures { result ≡ leb first c.0 && ltb c.0 (first + cells) }
{
    (first..first + cells).contains(&(c.0 as usize))
}
