// The lists of a part, as the calls give them.
ghost use Rattle.std.specs.Prelude.{◌≡◌};
ghost use Rattle.layout.specs.Answers.{answer_of};
ghost use Rattle.split.specs.Lists.{split_input, list_answer, list_out};

use layout::Refusal;
use layout::limits::{ELEMENT_PLACES, MOST_ELEMENTS, RECORD_PLACES, TABLE_BYTES};
use mesh::inner::cell_count;
use split::Wanted;
use split::inner::test_split;
use split_classes::inner::classify;
use split_ranges::inner::{add_range, classify_lowers};
use split_tables::inner::prepare;
use split_wanted::inner::{cell_words, other_of, range_wanted, row_of};
use walk_incidence::inner::Incidence;
use walk_reach_table::inner::ReachTable;
use word_lists::inner::give;

// The call. A list that names no other part is tried as if it named its own part twice. The mesh is tested in arrays that have the incidence
// afterwards. Once the row of classes is made the ends of the reaches are not needed, and the list is made in their array.
pub fn list(
    wanted: Wanted,
    m: &[u8],
    parts: u32,
    owners: &[u8],
    i: u32,
    stencil: &[u8],
    out: &mut [u8],
) -> Result<u32, Refusal>
    ensures { let D = split_input m.now parts owners.now stencil.now in
        (answer_of result ≡ list_answer D i wanted out.old) × (out.new ≡ list_out D i wanted out.old) }
{
    let mut incidence = Incidence {
        cell: [0; RECORD_PLACES],
        prev: [0; RECORD_PLACES],
        last: [0; ELEMENT_PLACES],
    };
    test_split(
        m,
        parts,
        owners,
        i,
        other_of(wanted, i),
        stencil,
        &mut incidence.cell,
        &mut incidence.last,
    )?;
    let mut reaches = ReachTable {
        entries: [0; TABLE_BYTES],
        ends: [0; ELEMENT_PLACES],
    };
    let mut holders = [0u8; MOST_ELEMENTS];
    let mut class = [0u8; MOST_ELEMENTS];
    prepare(
        m,
        parts,
        owners,
        stencil,
        &mut incidence,
        &mut reaches,
        &mut holders,
        &mut class,
    )?;
    classify(
        owners,
        &reaches.entries,
        &reaches.ends,
        cell_count(m),
        row_of(wanted, i) as usize,
        &mut class,
    );
    if let Some((range, dimension)) = range_wanted(wanted) {
        let k = dimension as usize;
        let mut lower = [0u8; MOST_ELEMENTS];
        classify_lowers(m, incidence.view(), &class, &holders, k, &mut lower);
        let n = add_range(m, k, &lower, range, &mut reaches.ends);
        return give(&reaches.ends[..n], out);
    }
    let n = cell_words(
        wanted,
        m,
        parts as usize,
        &class,
        i as usize,
        &mut reaches.ends,
    );
    give(&reaches.ends[..n], out)
}
