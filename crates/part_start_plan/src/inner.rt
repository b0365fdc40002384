// What start and state size share: the plan of a part, and what start writes behind its lists.
ghost use Rattle.std.specs.Prelude.{◌≡◌, cond, [], ◌∷◌, ◌++◌, ◌*◌, ◌<◌, ◌≤◌, length, replicate};
ghost use Rattle.vocabulary.specs.Bytes.{over};
ghost use Rattle.vocabulary.specs.Intervals.{blocks};
ghost use Rattle.layout.specs.Limits.{element_places, most_elements, record_places};
ghost use Rattle.mesh.specs.Mesh.{counted, first_cell};
ghost use Rattle.mesh.specs.Accepted.{Accepted};
ghost use Rattle.walk_incidence.specs.Links.{Inverted, Turned, lists};
ghost use Rattle.split_classes.specs.Classes.{Prepared};
ghost use Rattle.part_state.specs.State.{state_length, depths_place};
ghost use Rattle.split.specs.Lists.{split_number, sizes_number};
ghost use Rattle.part_start_lists.specs.Starting.{start_depth, FieldCells};
ghost use Rattle.part_start_points.specs.Points.{points_on, point_words};
ghost use Rattle.word_lists.specs.Putting.{Put};
ghost use Rattle.part_start_plan.specs.Planning.{Planned, PointRoom};

use mesh::inner::{cell_count, count_of, first_cell};
use part_calls::inner::clear;
use part_start_lists::inner::{Asked, Plan, count_exports, make_plan, put_cells};
use part_start_points::inner::{Sought, count_points, put_points};
use part_state::inner::DEPTHS;
use walk_incidence::inner::{IncidenceRef, turn};

// Writes what stands behind the lists at round 0: the round, the flags, and the depths of the held cells.
pub fn put_rest(b: &mut [u8], plan: Plan, f: &[u8], order: &[u16])
    requires { (state_length (2 * plan.long) plan.held ≤ length b.old)
        × (plan.long < 65536)
        × (plan.held ≤ most_elements)
        × FieldCells f.now plan.asked.first order.now plan.held }
    ensures { b.new ≡ over b.old (2 * plan.long) (replicate (depths_place 0) 0 ++ blocks 1 plan.held (start_depth f.now plan.asked.first order.now)) }
{
    clear(b, 2 * plan.long, DEPTHS);
    put_cells(
        b,
        2 * plan.long + DEPTHS,
        f,
        plan.asked.first,
        order,
        plan.held,
    );
}

// Whose points are sought.
pub fn sought_of(m: &[u8], i: u32) -> Sought
    ensures { (result.part ≡ i) × (result.first ≡ first_cell m.now) × (result.points ≡ counted m.now 0) }
{
    Sought {
        part: i as usize,
        first: first_cell(m),
        points: count_of(m, 0),
    }
}

// Makes out the plan of part i, by the tables and by the chains turned round. Its order takes the place of one list of these, so they are gone
// afterwards; the counts of its imports come into a cleared array. The row is work space.
pub fn draw_plan(
    m: &[u8],
    parts: u32,
    owners: &[u8],
    i: u32,
    stencil: &[u8],
    table: &[u8],
    ends: &[u16],
    holders: &[u8],
    class: &mut [u8],
    cell: &[u16],
    prev: &mut [u16],
    last: &[u16],
    got: &mut [u16],
) -> Plan
    requires { (split_number m.now parts owners.now (i ∷ i ∷ []) stencil.now ≡ 0)
        × (sizes_number m.now parts owners.now stencil.now ≡ 0)
        × Prepared m.now parts owners.now stencil.now table.now ends.now holders.now
        × Inverted m.now (lists cell.now prev.old last.now)
        × (length class.old ≡ most_elements)
        × (most_elements ≤ length prev.old)
        × (got.old ≡ replicate 19 0) }
    ensures { Planned m.now parts owners.now i stencil.now table.now ends.now prev.new got.new result }
{
    let incidence = IncidenceRef { cell, prev, last };
    let points = count_points(sought_of(m, i), owners, incidence);
    let asked = Asked {
        part: i as usize,
        parts: parts as usize,
        first: first_cell(m),
        cells: cell_count(m),
        points: points.points,
        around: points.cells,
    };
    let sent = count_exports(owners, holders, asked.part, asked.cells);
    make_plan(asked, sent, owners, table, ends, class, prev, got)
}

// Writes the words of the part's points from word s on, when all else is written: the chains are turned round once more, in arrays that are free by then.
pub fn add_points(
    b: &mut [u8],
    s: usize,
    m: &[u8],
    sought: Sought,
    outside: bool,
    owners: &[u8],
    local: &[u16],
    cell: &mut [u16],
    prev: &mut [u16],
    last: &mut [u16],
) -> usize
    requires { Accepted m.now
        × (length cell.old ≡ record_places)
        × (length prev.old ≡ record_places)
        × (length last.old ≡ element_places)
        × (sought.points ≤ most_elements)
        × PointRoom m.now owners.now b.old s sought.part sought.first sought.points }
    ensures { let w = lists cell.new prev.new last.new in
        let points = points_on w owners.now sought.first sought.part sought.points in
        Turned m.now w
        × Put b.old b.new s result (point_words w (cond outside [] local.now)
        points (length points)) }
{
    turn(m, cell, prev, last);
    let incidence = IncidenceRef { cell, prev, last };
    put_points(b, s, sought, outside, owners, local, incidence)
}
