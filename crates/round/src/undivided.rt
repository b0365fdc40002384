// The undivided round.
ghost use Rattle.std.specs.Prelude.{◌≡◌, false, ◌*◌, ◌≤◌, length};
ghost use Rattle.vocabulary.specs.Bytes.{over};
ghost use Rattle.vocabulary.specs.Intervals.{blocks};
ghost use Rattle.layout.specs.Answers.{answer_of};
ghost use Rattle.layout.specs.Limits.{record_places, table_bytes};
ghost use Rattle.depths.specs.Depths.{deepest, value_bytes, Within};
ghost use Rattle.mesh.specs.Mesh.{top, mesh_number};
ghost use Rattle.mesh.specs.Walks.{steps, bad10};
ghost use Rattle.round_rule.specs.Rules.{bad11};
ghost use Rattle.round_rule.specs.Kinds.{kind_number};
ghost use Rattle.round.specs.Rounds.{round_input, round_answer, round_out};
ghost use Rattle.round.specs.Rows.{row_new, Row, Rows};

use crate::bad_field;
use depths::Value;
use depths::inner::put_value;
use layout::Refusal;
use layout::limits::{ELEMENT_PLACES, RECORD_PLACES, TABLE_BYTES};
use mesh::inner::{cell_count, top_of};
use mesh_valid::inner::test_mesh_in;
use round_rule::{Kind, bad_weights};
use round_update::inner::new_depth;
use walk_reach_table::inner::{ReachTable, reach_table};
use walk_stencil::bad_stencil;

// The new value of the cell at place j, from its row of the table.
fn new_at(kind: Kind, weights: &[u8], reaches: &ReachTable, f: &[u8], j: usize) -> Value
    requires { (j ≤ 65535) × Row (kind_number kind) weights.now reaches.now.entries reaches.now.ends f.now j }
    ensures { (value_bytes result ≡ row_new (kind_number kind) weights.now reaches.now.entries reaches.now.ends f.now j) × Within deepest result }
{
    let start = reaches.start(j);
    new_depth(
        kind,
        weights,
        &reaches.entries,
        4 * start,
        reaches.end(j) - start,
        f,
        0,
        j,
    )
}

// The new values of all cells: f is only read and out only written, so every one comes from old ones.
// The like in part_update goes by local numbers: a closure for the new value is no shorter than this. How many rows the table has is known by the
// mesh alone.
fn renew(kind: Kind, weights: &[u8], reaches: &ReachTable, cells: usize, f: &[u8], out: &mut [u8])
    requires { Rows (kind_number kind) weights.now reaches.now.entries reaches.now.ends cells f.now × (4 * cells ≤ length out.old) }
    ensures { out.new ≡ over out.old 0 (blocks 0 cells (row_new (kind_number kind) weights.now reaches.now.entries reaches.now.ends f.now)) }
{
    for j in 0..cells {
        let x = new_at(kind, weights, reaches, f, j);
        put_value(out, 4 * j, x);
    }
}

// The round on an accepted mesh, stencil and rule. `cell` and the table are work space.
fn round_on(
    m: &[u8],
    stencil: &[u8],
    kind: Kind,
    weights: &[u8],
    f: &[u8],
    out: &mut [u8],
    cell: &mut [u16],
    reaches: &mut ReachTable,
) -> Result<u32, Refusal>
    requires { (mesh_number m.now ≡ 0) × (bad10 (top m.now) stencil.now ≡ false) × (bad11 (kind_number kind) (steps stencil.now) weights.now ≡ false)
        × (length cell.old ≡ record_places) × (length reaches.old.entries ≡ table_bytes) }
    ensures { let I = round_input m.now stencil.now (kind_number kind) weights.now f.now in
        (answer_of result ≡ round_answer I out.old) × (out.new ≡ round_out I out.old) }
{
    if reach_table(m, stencil, cell, reaches).is_none() {
        return Err(Refusal::Reach);
    }
    let cells = cell_count(m);
    if bad_field(cells, f) {
        return Err(Refusal::Field);
    }
    if out.len() < 4 * cells {
        return Err(Refusal::Output);
    }
    renew(kind, weights, reaches, cells, f, out);
    Ok(cells as u32)
}

// One undivided round: mesh, stencil, rule kind and weights, field. The new field stands at the front of `out`. The mesh is tested in arrays that the
// reaches are found in afterwards.
pub fn undivided_round(
    m: &[u8],
    stencil: &[u8],
    kind: u32,
    weights: &[u8],
    f: &[u8],
    out: &mut [u8],
) -> Result<u32, Refusal>
    ensures { let I = round_input m.now stencil.now kind weights.now f.now in
        (answer_of result ≡ round_answer I out.old) × (out.new ≡ round_out I out.old) }
{
    let mut cell = [0; RECORD_PLACES];
    // the table is written even where the reaches are too many, so it stands in an array of our own
    let mut reaches = ReachTable {
        entries: [0; TABLE_BYTES],
        ends: [0; ELEMENT_PLACES],
    };
    test_mesh_in(m, &mut cell, &mut reaches.ends)?;
    if bad_stencil(top_of(m), stencil) {
        return Err(Refusal::Stencil);
    }
    let kind = Kind::try_from(kind)?;
    if bad_weights(kind, stencil.len() - 1, weights) {
        return Err(Refusal::Rule);
    }
    round_on(m, stencil, kind, weights, f, out, &mut cell, &mut reaches)
}
