// Start, which makes a part's state.
#![tactic(auto)]

ghost use Rattle.std.specs.Prelude.{◌≡◌};
ghost use Rattle.layout.specs.Answers.{answer_of};
ghost use Rattle.part_start_plan.specs.Start.{inputs, start_answer, start_state};

use layout::Refusal;
use layout::limits::{ELEMENT_PLACES, MOST_ELEMENTS, MOST_PARTS, RECORD_PLACES, TABLE_BYTES};
use mesh::inner::cell_count;
use part_start_lists::inner::{find_sent, number_order, put_entries, put_front};
use part_start_plan::inner::{add_points, draw_plan, put_rest, sought_of};
use part_start_points::inner::some_outside;
use part_state::inner::DEPTHS;
use round::bad_field;
use round_rule::bad_rule;
use split::inner::test_split;
use split_classes::inner::CLASSES;
use split_tables::inner::prepare;
use walk_incidence::inner::{Incidence, sizes_of};
use walk_reach_table::inner::ReachTable;

// Makes the state of part i at round 0 at the front of b: mesh, number of parts and owners, the part, stencil, rule kind and weights, field. The mesh is
// tested in arrays that have the incidence afterwards. Once the points are counted and tested the chains are not needed for a
// while: the order, the local numbers and the exports stand in their arrays. `last` has the cells linked by owner before it has the local numbers, and
// keeps these: when the chains are turned round once more, the ends of the reaches stand in its place.
pub fn start(
    m: &[u8],
    parts: u32,
    owners: &[u8],
    i: u32,
    stencil: &[u8],
    kind: u32,
    weights: &[u8],
    f: &[u8],
    b: &mut [u8],
) -> Result<u32, Refusal>
    ensures { let I = inputs m.now parts owners.now stencil.now kind weights.now f.now in
        (answer_of result ≡ start_answer I i b.old) × (b.new ≡ start_state I i b.old) }
{
    let mut incidence = Incidence {
        cell: [0; RECORD_PLACES],
        prev: [0; RECORD_PLACES],
        last: [0; ELEMENT_PLACES],
    };
    test_split(
        m,
        parts,
        owners,
        i,
        i,
        stencil,
        &mut incidence.cell,
        &mut incidence.last,
    )?;
    if bad_rule(kind, stencil.len() - 1, weights) {
        return Err(Refusal::Rule);
    }
    let mut reaches = ReachTable {
        entries: [0; TABLE_BYTES],
        ends: [0; ELEMENT_PLACES],
    };
    let mut holders = [0u8; MOST_ELEMENTS];
    let mut class = [0u8; MOST_ELEMENTS];
    let mut got = [0u16; CLASSES];
    let mut sent = [0u16; MOST_PARTS + 1];
    prepare(
        m,
        parts,
        owners,
        stencil,
        &mut incidence,
        &mut reaches,
        &mut holders,
        &mut class,
    )?;
    if bad_field(cell_count(m), f) {
        return Err(Refusal::Field);
    }
    let sought = sought_of(m, i);
    let outside = some_outside(
        m,
        sizes_of(m),
        sought,
        owners,
        &reaches.entries,
        &reaches.ends,
        &mut class,
        incidence.view(),
    );
    let p = draw_plan(
        m,
        parts,
        owners,
        i,
        stencil,
        &reaches.entries,
        &reaches.ends,
        &holders,
        &mut class,
        &incidence.cell,
        &mut incidence.prev,
        &incidence.last,
        &mut got,
    );
    let size = 2 * p.long + DEPTHS + 4 * p.held;
    if b.len() < size {
        return Err(Refusal::Output);
    }
    find_sent(
        owners,
        &reaches.entries,
        &reaches.ends,
        p,
        &mut class,
        &mut incidence.last,
        &mut incidence.cell,
        &mut sent,
    );
    number_order(&incidence.prev, p.held, &mut incidence.last);
    let s = put_front(b, p, stencil.len() - 1, kind as usize, weights, &got, &sent);
    put_entries(
        b,
        s,
        &reaches.entries,
        &reaches.ends,
        p,
        &incidence.prev,
        &incidence.last,
        &incidence.cell,
    );
    put_rest(b, p, f, &incidence.prev);
    // one loan for the three lists: one of them is read while the others change
    let lent = &mut incidence;
    add_points(
        b,
        p.front,
        m,
        sought,
        outside,
        owners,
        &lent.last,
        &mut lent.cell,
        &mut lent.prev,
        &mut reaches.ends,
    );
    Ok(size as u32)
}
