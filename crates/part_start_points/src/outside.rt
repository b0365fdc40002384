// Whether a cell at a point of an owned cell is outside that cell's reach (29). The reach of one owned cell after another is stamped, and cleared again, so
// that the whole takes as long as the reaches of the owned cells and the cells at each of their points together.
ghost use Rattle.std.specs.Prelude.{◌≡◌, ◌+◌, ◌<◌, ◌≤◌, length};
ghost use Rattle.layout.specs.Limits.{most_elements};
ghost use Rattle.mesh.specs.Accepted.{Accepted};
ghost use Rattle.walk_incidence.specs.Links.{seen};
ghost use Rattle.walk_incidence.specs.Sizes.{Sized};
ghost use Rattle.split_classes.specs.Classes.{RowCleared};
ghost use Rattle.part_start_points.specs.Outside.{unstamped_at, chain_unstamped, cell_outside, some_outside};

use crate::points::Sought;
use crate::trails::some_at;
use mesh::inner::{head_of, read_record};
use part_start_lists::inner::stamp_reach;
use split::inner::owner_of;
use split_classes::inner::clear_row;
use walk_incidence::inner::{IncidenceRef, MeshSizes};

// Whether element g is a point at which some cell bears no stamp.
fn unstamped_at(sought: Sought, stamps: &[u8], incidence: IncidenceRef, g: usize) -> bool
    ensures { result ≡ unstamped_at (seen incidence.entry) stamps.now sought.first sought.points g }
{
    if sought.points < g {
        return false;
    }
    some_at(stamps, sought.first, 0, incidence, g)
}

// Whether there is such a point in the chain from record h on.
fn chain_unstamped(
    m: &[u8],
    sizes: MeshSizes,
    h: usize,
    sought: Sought,
    stamps: &[u8],
    incidence: IncidenceRef,
) -> bool
    requires { Accepted m.now × Sized m.now sizes × (h < 65536) }
    ensures { result ≡ chain_unstamped m.now (seen incidence.entry) stamps.now sought.first
        sought.points (sizes.records + 1) h }
{
    let mut i = h;
    for _k in 0..sizes.records + 1 {
        if i < 1 {
            return false;
        }
        let here = read_record(m, sizes.elements, i);
        if unstamped_at(sought, stamps, incidence, here.element) {
            return true;
        }
        i = here.next;
    }
    false
}

// Whether the part owns cell c, and some cell at a point of it is outside its reach. The stamps are cleared before and after.
fn cell_outside(
    m: &[u8],
    sizes: MeshSizes,
    sought: Sought,
    owners: &[u8],
    table: &[u8],
    ends: &[u16],
    c: usize,
    stamps: &mut [u8],
    incidence: IncidenceRef,
) -> bool
    requires { Accepted m.now × Sized m.now sizes × (sought.first ≤ c) × (c < 65536) × RowCleared most_elements stamps.old }
    ensures { (result ≡ cell_outside m.now (seen incidence.entry) owners.now table.now
        ends.now sought.first sought.points sought.part c)
        × RowCleared most_elements stamps.new }
{
    let q = c - sought.first;
    if owner_of(owners, q) as usize != sought.part {
        return false;
    }
    stamp_reach(table, ends, q, 1, stamps);
    let h = head_of(m, c);
    let outside = chain_unstamped(m, sizes, h, sought, stamps, incidence);
    stamp_reach(table, ends, q, 0, stamps);
    outside
}

// Whether there is such a cell (29). The row of stamps is work space.
// The test stamps the row and clears it again: `any` with that effect is no plainer.
pub fn some_outside(
    m: &[u8],
    sizes: MeshSizes,
    sought: Sought,
    owners: &[u8],
    table: &[u8],
    ends: &[u16],
    stamps: &mut [u8],
    incidence: IncidenceRef,
) -> bool
    requires { Accepted m.now × Sized m.now sizes × (sought.first ≡ sizes.first) × (length stamps.old ≡ most_elements) }
    ensures { result ≡ some_outside m.now (seen incidence.entry) owners.now table.now
        ends.now sought.first sought.points sought.part sizes.cells }
{
    clear_row(stamps);
    for c in sought.first..sought.first + sizes.cells {
        if cell_outside(m, sizes, sought, owners, table, ends, c, stamps, incidence) {
            return true;
        }
    }
    false
}
