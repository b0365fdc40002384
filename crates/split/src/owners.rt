// The part map, read in one place; `walk_part_reach`, `group_cells` and `part_start_points` alone are lent its bytes, as rows.
ghost use Rattle.std.specs.Prelude.{◌≡◌};
ghost use Rattle.split.specs.Split.{owner_at};

use layout::byte_at;

// The owner of the cell at place k, from 0.
pub fn owner_of(owners: &[u8], k: usize) -> u8
    ensures { result ≡ owner_at owners.now k }
{
    byte_at(owners, k)
}
