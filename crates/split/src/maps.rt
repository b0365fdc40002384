// The tests 8 and 9, and a call by the tests up to 10.
ghost use Rattle.std.specs.Prelude.{◌≡◌, [], ◌∷◌, ◌≤◌, length, replicate};
ghost use Rattle.vocabulary.specs.Lists.{Zeros, every_of};
ghost use Rattle.vocabulary.specs.Intervals.{is_up_to};
ghost use Rattle.layout.specs.Answers.{refused_as};
ghost use Rattle.layout.specs.Limits.{element_places, most_records};
ghost use Rattle.split.specs.Split.{split_of};
ghost use Rattle.split.specs.Lists.{bad8, bad9, split_number};
ghost use Rattle.split.specs.Owners.{OwnersSeen};

use crate::owners::owner_of;
use layout::limits::MOST_PARTS;
use layout::{Refusal, byte_at, put_at};
use mesh::inner::{cell_count, top_of};
use mesh_valid::inner::test_mesh_in;
use walk_stencil::bad_stencil;

// The most parts, as the number that calls are given.
const PARTS: u32 = MOST_PARTS as u32;

// How many values a byte has.
const BYTE_VALUES: usize = 256;

// Whether i is one of the parts.
// `part_state: up_to` says this of usize: a call with two casts is no plainer than this line.
pub fn is_part(parts: u32, i: u32) -> bool
    ensures { result ≡ is_up_to parts i }
{
    1 <= i && i <= parts
}

fn valid_owners(parts: u32, owners: &[u8]) -> bool
    ensures { result ≡ every_of owners.now (is_up_to parts) }
{
    owners.iter().all(|&owner| is_part(parts, u32::from(owner)))
}

// Whether the number of parts or the map is to be refused, with number 8. A part that a call names is tried by `is_part`.
pub fn bad_map(m: &[u8], parts: u32, owners: &[u8]) -> bool
    ensures { result ≡ bad8 m.now parts owners.now [] }
{
    if !is_part(PARTS, parts) {
        return true;
    }
    if owners.len() != cell_count(m) {
        return true;
    }
    !valid_owners(parts, owners)
}

// Marks the owners of the cells, in a cleared array.
// By numbers, and no slice: nothing is asked of the length of the map, and past its end an owner is 0.
fn mark_owners(owners: &[u8], cells: usize, seen: &mut [u8])
    requires { seen.old ≡ replicate 256 0 }
    ensures { OwnersSeen owners.now cells seen.new }
{
    for q in 0..cells {
        put_at(seen, owner_of(owners, q) as usize, 1);
    }
}

// Whether a part owns no cell, number 9. The stencil does not matter to it. A part above 255 owns none.
pub fn bad_shares(m: &[u8], parts: u32, owners: &[u8]) -> bool
    ensures { result ≡ bad9 (split_of m.now parts owners.now []) }
{
    let cells = cell_count(m);
    let mut seen = [0u8; BYTE_VALUES];
    mark_owners(owners, cells, &mut seen);
    (0..parts).any(|k| byte_at(&seen, k as usize + 1) == 0)
}

// The first test up to 10 that refuses a call which names the parts i and j. The mesh is tested in lent space; what the lent arrays hold afterwards does
// not matter.
pub fn test_split(
    m: &[u8],
    parts: u32,
    owners: &[u8],
    i: u32,
    j: u32,
    stencil: &[u8],
    items: &mut [u16],
    ends: &mut [u16],
) -> Result<(), Refusal>
    requires { (most_records ≤ length items.old) × Zeros element_places ends.old }
    ensures { refused_as result ≡ split_number m.now parts owners.now (i ∷ j ∷ []) stencil.now }
{
    test_mesh_in(m, items, ends)?;
    if bad_map(m, parts, owners) {
        return Err(Refusal::PartMap);
    }
    if !is_part(parts, i) {
        return Err(Refusal::PartMap);
    }
    if !is_part(parts, j) {
        return Err(Refusal::PartMap);
    }
    if bad_shares(m, parts, owners) {
        return Err(Refusal::EmptyPart);
    }
    if bad_stencil(top_of(m), stencil) {
        return Err(Refusal::Stencil);
    }
    Ok(())
}
