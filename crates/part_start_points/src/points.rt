// The points that touch a part: found, counted, and written into its state with the cells at them.
ghost use Rattle.std.specs.Prelude.{◌≡◌, cond, [], ◌+◌, ◌*◌, ◌<◌, ◌≤◌, length};
ghost use Rattle.vocabulary.specs.Intervals.{listed, blocks};
ghost use Rattle.layout.specs.Limits.{most_elements, record_places};
ghost use Rattle.walk_incidence.specs.Links.{seen};
ghost use Rattle.word_lists.specs.Putting.{Put};
ghost use Rattle.part_start_points.specs.Points.{points_on, Found, size_at, size_ends, around_on, point_words, word_count};

use crate::trails::{put_trail, some_at, trail_length};
use layout::limits::ELEMENT_PLACES;
use layout::{get_or, put_at};
use walk_incidence::inner::IncidenceRef;
use word_lists::inner::{put_list, put_one};

// Whose points are sought: the part, the mesh's first cell, and how many points the mesh has.
#[derive(Clone, Copy)]
pub struct Sought {
    pub part: usize,
    pub first: usize,
    pub points: usize,
}

// How many points touch a part, and how many cells there are at them together.
#[derive(Clone, Copy)]
pub struct PointCounts {
    pub points: usize,
    pub cells: usize,
}

// Lists the points that touch the part, rising, and gives how many there are.
// No heap: what passes goes into a lent array, and n says how many.
fn find_points(sought: Sought, owners: &[u8], incidence: IncidenceRef, list: &mut [u16]) -> usize
    requires { (sought.points ≤ most_elements) × (sought.points ≤ length list.old) }
    ensures { Found list.new result (points_on (seen incidence.entry) owners.now sought.first sought.part
        sought.points)
        × (result ≤ sought.points) }
{
    let mut n = 0;
    for p in 1..sought.points + 1 {
        if !some_at(owners, sought.first, sought.part, incidence, p) {
            continue;
        }
        put_at(list, n, p as u16);
        n += 1;
    }
    n
}

// How many cells there are at the k-th point of a list, from 1 on.
fn size_at(list: &[u16], k: usize, incidence: IncidenceRef) -> usize
    requires { 1 ≤ k }
    ensures { (result ≡ size_at (seen incidence.entry) list.now k) × (result ≤ record_places) }
{
    let p = get_or(list, k - 1, 0) as usize;
    trail_length(incidence, p)
}

// How many cells there are at the first n points of a list together.
fn total_size(list: &[u16], n: usize, incidence: IncidenceRef) -> usize
    requires { n ≤ most_elements }
    ensures { result ≡ size_ends (seen incidence.entry) list.now n }
{
    let mut e = 0;
    for k in 0..n {
        e += size_at(list, k + 1, incidence);
    }
    e
}

// Counts the points that touch the part, and the cells at them.
pub fn count_points(sought: Sought, owners: &[u8], incidence: IncidenceRef) -> PointCounts
    requires { sought.points ≤ most_elements }
    ensures { let points = points_on (seen incidence.entry) owners.now sought.first sought.part sought.points in
        (result.points ≡ length points) × (result.cells ≡ size_ends (seen incidence.entry) points (length points)) }
{
    let mut list = [0u16; ELEMENT_PLACES];
    let points = find_points(sought, owners, incidence, &mut list);
    PointCounts {
        points,
        cells: total_size(&list, points, incidence),
    }
}

// Writes where the cells at each of the first n points of a list end.
// Beside `part_start_lists: put_row_ends`: one for both would take the sizes by a closure, no shorter than this loop.
fn put_sizes(b: &mut [u8], s: usize, list: &[u16], n: usize, incidence: IncidenceRef) -> usize
    requires { (2 * (s + n + 1) ≤ length b.old) × (s < 65536) × (n < 65535) × (size_ends (seen incidence) list.now n < 65536) }
    ensures { Put b.old b.new s result (listed 0 (n + 1) (size_ends (seen incidence.entry) list.now)) }
{
    let mut e = 0;
    let mut t = s;
    for k in 0..n {
        t = put_one(b, t, e);
        e += size_at(list, k + 1, incidence);
    }
    put_one(b, t, e)
}

// Writes the cells at the first n points of a list in local numbers.
fn put_around(
    b: &mut [u8],
    s: usize,
    list: &[u16],
    n: usize,
    local: &[u16],
    incidence: IncidenceRef,
) -> usize
    requires { (2 * (s + size_ends (seen incidence) list.now n) ≤ length b.old)
        × (s + size_ends (seen incidence) list.now n < 65536)
        × (n < 65535) }
    ensures { Put b.old b.new s result (blocks 1 n (around_on (seen incidence.entry) local.now list.now)) }
{
    let mut t = s;
    for k in 1..n + 1 {
        let p = get_or(list, k - 1, 0) as usize;
        t = put_trail(b, t, incidence, p, local);
    }
    t
}

// Writes the first n points of a list, where the cells at each end, and these cells in local numbers.
fn put_listed(
    b: &mut [u8],
    s: usize,
    list: &[u16],
    n: usize,
    local: &[u16],
    incidence: IncidenceRef,
) -> usize
    requires { (2 * (s + word_count (seen incidence) list.now n) ≤ length b.old)
        × (s + word_count (seen incidence) list.now n < 65536)
        × (n ≤ length list.now) }
    ensures { Put b.old b.new s result (point_words (seen incidence.entry) local.now list.now n) }
{
    let t = put_one(b, s, n);
    let u = put_list(b, t, &list[..n]);
    let w = put_sizes(b, u, list, n, incidence);
    put_around(b, w, list, n, local, incidence)
}

// Writes the part's points with the cells at them. Where one of these cells is outside a reach, zeros stand for all of them.
pub fn put_points(
    b: &mut [u8],
    s: usize,
    sought: Sought,
    outside: bool,
    owners: &[u8],
    local: &[u16],
    incidence: IncidenceRef,
) -> usize
    requires { let points = points_on (seen incidence) owners.now sought.first sought.part sought.points in
        (sought.points ≤ most_elements)
        × (2 * (s + word_count (seen incidence) points (length points)) ≤ length b.old)
        × (s + word_count (seen incidence) points (length points) < 65536) }
    ensures { let points = points_on (seen incidence.entry) owners.now sought.first sought.part sought.points in
        Put b.old b.new s result (point_words (seen incidence.entry) (cond outside [] local.now)
        points (length points)) }
{
    let mut list = [0u16; ELEMENT_PLACES];
    let n = find_points(sought, owners, incidence, &mut list);
    if outside {
        let none = [0u16; 0];
        return put_listed(b, s, &list, n, &none, incidence);
    }
    put_listed(b, s, &list, n, local, incidence)
}
