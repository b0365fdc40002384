// The lines of a part's cells, imports and exports: by the row of the part's classes, and for the exports by the rows of the others.
ghost use Rattle.std.specs.Prelude.{◌≤◌};
ghost use Rattle.vocabulary.specs.Intervals.{blocks};
ghost use Rattle.layout.specs.Limits.{most_parts};
ghost use Rattle.mesh.specs.Mesh.{first_cell, cell_count};
ghost use Rattle.mesh.specs.Accepted.{Accepted};
ghost use Rattle.list_text.specs.Listing.{line};
ghost use Rattle.list_text.specs.Printing.{Put};
ghost use Rattle.list_ranges.specs.Lines.{cells_of, passing, import_line, export_line, own_lines};

use layout::limits::MOST_ELEMENTS;
use list_ranges::inner::{Row, put_class};
use list_text::inner::Printer;
use mesh::inner::{cell_count, first_cell};
use split_classes::inner::{HALO, INTERIOR, classify};

// The line of the cells of class k.
fn put_cells(label: &[u8], row: &Row, k: u8, text: &mut Printer)
    ensures { Put text.old text.new (line label.now (cells_of row.now k)) }
{
    text.put_text(label);
    put_class(row, k, text);
}

// The lines of the cells of part i.
pub fn put_own(row: &Row, i: usize, text: &mut Printer)
    ensures { Put text.old text.new (own_lines row.now i) }
{
    text.put_line(b"part", i);
    put_cells(b"interior", row, INTERIOR, text);
    put_cells(b"halo", row, HALO, text);
}

// The line of what passes between a part and part j, the cells of class k in a row, and nothing where that is empty.
fn put_passing(label: &[u8], j: usize, row: &Row, k: u8, text: &mut Printer)
    ensures { Put text.old text.new (passing label.now j (cells_of row.now k)) }
{
    if row.class.contains(&k) {
        text.put_text(label);
        text.put_spaced(j);
        put_class(row, k, text);
    }
}

// The lines of the imports from each part, by rising part.
pub fn put_imports(row: &Row, parts: usize, text: &mut Printer)
    requires { parts ≤ most_parts }
    ensures { Put text.old text.new (blocks 1 parts (import_line row.now)) }
{
    for j in 1..=parts {
        put_passing(b"import", j, row, j as u8, text);
    }
}

// The lines of the exports of part i to each part, by rising part: each by the row of the part that they go to. Table and ends are
// slices of any length, as in `classify`.
pub fn put_exports(
    m: &[u8],
    owners: &[u8],
    table: &[u8],
    ends: &[u16],
    i: usize,
    parts: usize,
    text: &mut Printer,
)
    requires { Accepted m.now × (i ≤ most_parts) × (parts ≤ most_parts) }
    ensures { Put text.old text.new (blocks 1 parts (export_line owners.now table.now ends.now (first_cell m.now) (cell_count m.now) i)) }
{
    let first = first_cell(m);
    let cells = cell_count(m);
    for other in 1..=parts {
        let mut class = [0u8; MOST_ELEMENTS];
        classify(owners, table, ends, cells, other, &mut class);
        let row = Row {
            class: &class[..cells],
            first,
        };
        put_passing(b"export", other, &row, i as u8, text);
    }
}
