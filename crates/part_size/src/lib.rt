// The size of a part's state.
#![tactic(auto)]

ghost use Rattle.std.specs.Prelude.{◌≡◌};
ghost use Rattle.layout.specs.Answers.{answer_of};
ghost use Rattle.part_start_plan.specs.Start.{size_answer};
ghost use Rattle.split.specs.Lists.{split_input};

use layout::Refusal;
use layout::limits::{ELEMENT_PLACES, MOST_ELEMENTS, RECORD_PLACES, TABLE_BYTES};
use part_start_plan::inner::draw_plan;
use part_state::inner::DEPTHS;
use split::inner::test_split;
use split_classes::inner::CLASSES;
use split_tables::inner::prepare;
use walk_incidence::inner::Incidence;
use walk_reach_table::inner::ReachTable;

// How many bytes the state of part i needs. The mesh is tested in arrays that have the incidence afterwards.
pub fn state_size(
    m: &[u8],
    parts: u32,
    owners: &[u8],
    i: u32,
    stencil: &[u8],
) -> Result<u32, Refusal>
    ensures { answer_of result ≡ size_answer (split_input m.now parts owners.now stencil.now) i }
{
    let mut incidence = Incidence {
        cell: [0; RECORD_PLACES],
        prev: [0; RECORD_PLACES],
        last: [0; ELEMENT_PLACES],
    };
    test_split(
        m,
        parts,
        owners,
        i,
        i,
        stencil,
        &mut incidence.cell,
        &mut incidence.last,
    )?;
    let mut reaches = ReachTable {
        entries: [0; TABLE_BYTES],
        ends: [0; ELEMENT_PLACES],
    };
    let mut holders = [0u8; MOST_ELEMENTS];
    let mut class = [0u8; MOST_ELEMENTS];
    let mut got = [0u16; CLASSES];
    prepare(
        m,
        parts,
        owners,
        stencil,
        &mut incidence,
        &mut reaches,
        &mut holders,
        &mut class,
    )?;
    let p = draw_plan(
        m,
        parts,
        owners,
        i,
        stencil,
        &reaches.entries,
        &reaches.ends,
        &holders,
        &mut class,
        &incidence.cell,
        &mut incidence.prev,
        &incidence.last,
        &mut got,
    );
    Ok((2 * p.long + DEPTHS + 4 * p.held) as u32)
}
