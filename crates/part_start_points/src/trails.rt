// Loops along the trail of an element, which leads to its cells.
ghost use Rattle.std.specs.Prelude.{◌≡◌, map, ◌+◌, ◌*◌, ◌<◌, ◌≤◌, length};
ghost use Rattle.layout.specs.Limits.{record_places};
ghost use Rattle.walk_incidence.specs.Links.{cells_on, seen};
ghost use Rattle.word_lists.specs.Putting.{Put};
ghost use Rattle.part_start_lists.specs.Starting.{local_in};
ghost use Rattle.part_start_points.specs.Points.{some_at};

use cell_numbers::Global;
use layout::byte_at;
use split::inner::{place_from, to_local};
use walk_incidence::inner::IncidenceRef;
use word_lists::inner::put_one;

// Whether one of the cells at element e has the byte k in a row of one byte a cell.
pub fn some_at(row: &[u8], first: usize, k: usize, incidence: IncidenceRef, e: usize) -> bool
    ensures { result ≡ some_at row.now first k (cells_on (seen incidence.entry) e) }
{
    incidence.cells_at(e).any(|c| byte_at(row, place_from(first, c as usize)) as usize == k)
}

// How many cells there are at element e.
pub fn trail_length(incidence: IncidenceRef, e: usize) -> usize
    ensures { (result ≡ length (cells_on (seen incidence.entry) e)) × (result ≤ record_places) }
{
    incidence.cells_at(e).count()
}

// Writes the cells at element e in local numbers.
pub fn put_trail(b: &mut [u8], s: usize, incidence: IncidenceRef, e: usize, local: &[u16]) -> usize
    requires { (2 * (s + length (cells_on (seen incidence) e)) ≤ length b.old)
        × (s + length (cells_on (seen incidence) e) < 65536) }
    ensures { Put b.old b.new s result (map (local_in local.now) (cells_on (seen incidence.entry) e)) }
{
    let mut u = s;
    for c in incidence.cells_at(e) {
        u = put_one(b, u, to_local(local, Global(c)).0 as usize);
    }
    u
}
