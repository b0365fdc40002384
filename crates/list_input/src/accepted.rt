// The text for a mesh, a map and a stencil that the tests up to 10 accept: the one place of the list program where all tables stand together.
ghost use Rattle.std.specs.Prelude.{◌≡◌, [], ◌∷◌};
ghost use Rattle.split.specs.Lists.{split_number};
ghost use Rattle.layout.specs.Answers.{refusal_number};
ghost use Rattle.list_text.specs.Listing.{ascii, line};
ghost use Rattle.list_text.specs.Printing.{Put};
ghost use Rattle.list_input.specs.Pieces.{pieces_text};

use layout::Refusal;
use layout::limits::{ELEMENT_PLACES, MOST_ELEMENTS, RECORD_PLACES, TABLE_BYTES};
use list_parts::inner::{put_exports, put_imports, put_own};
use list_ranges::inner::{Row, put_dimensions};
use list_text::inner::Printer;
use mesh::inner::{cell_count, first_cell};
use split_classes::inner::classify;
use split_tables::inner::prepare;
use walk_incidence::inner::Incidence;
use walk_reach_table::inner::ReachTable;

// The line of a refusal.
pub fn put_refusal(refusal: Refusal, text: &mut Printer)
    ensures { Put text.old text.new (line (ascii "refused") (refusal_number refusal ∷ [])) }
{
    text.put_line(b"refused", u32::from(refusal) as usize);
}

// The tables are prepared, and the lines of the parts are read off them, rising: of each part the lines of its cells, its imports, its exports and its ranges.
pub fn list_accepted(m: &[u8], parts: u32, owners: &[u8], stencil: &[u8], text: &mut Printer)
    requires { split_number m.now parts owners.now (1 ∷ 1 ∷ []) stencil.now ≡ 0 }
    ensures { Put text.old text.new (pieces_text m.now parts owners.now stencil.now) }
{
    let mut incidence = Incidence {
        cell: [0; RECORD_PLACES],
        prev: [0; RECORD_PLACES],
        last: [0; ELEMENT_PLACES],
    };
    let mut reaches = ReachTable {
        entries: [0; TABLE_BYTES],
        ends: [0; ELEMENT_PLACES],
    };
    let mut holders = [0u8; MOST_ELEMENTS];
    let mut class = [0u8; MOST_ELEMENTS];
    let prepared = prepare(
        m,
        parts,
        owners,
        stencil,
        &mut incidence,
        &mut reaches,
        &mut holders,
        &mut class,
    );
    if let Err(refusal) = prepared {
        return put_refusal(refusal, text);
    }
    let first = first_cell(m);
    let cells = cell_count(m);
    let count = parts as usize;
    text.put_line(b"parts", count);
    for i in 1..=count {
        classify(
            owners,
            &reaches.entries,
            &reaches.ends,
            cells,
            i,
            &mut class,
        );
        let row = Row {
            class: &class[..cells],
            first,
        };
        put_own(&row, i, text);
        put_imports(&row, count, text);
        put_exports(m, owners, &reaches.entries, &reaches.ends, i, count, text);
        put_dimensions(m, incidence.view(), &class, &holders, text);
    }
}
