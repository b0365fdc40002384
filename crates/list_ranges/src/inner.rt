// The lines of a part's ranges, and the lines of lists by a row of classes.
ghost use Rattle.std.specs.Prelude.{◌<◌};
ghost use Rattle.vocabulary.specs.Intervals.{blocks};
ghost use Rattle.mesh.specs.Mesh.{top};
ghost use Rattle.mesh.specs.Accepted.{Accepted};
ghost use Rattle.walk_incidence.specs.Links.{Inverted, seen};
ghost use Rattle.list_text.specs.Printing.{Put, numbers};
ghost use Rattle.list_ranges.specs.Lines.{cells_of, range_line, row_lines, dimension_lines};

pub use crate::row::Row;
use layout::limits::MOST_ELEMENTS;
use list_text::inner::Printer;
use mesh::inner::{below_of, count_of, top_of};
use split_ranges::inner::{COPIED, EXPOSED, PRIVATE, SHARED, classify_lowers};
use walk_incidence::inner::IncidenceRef;

// The numbers of class k, and the end of their line.
pub fn put_class(row: &Row, k: u8, text: &mut Printer)
    ensures { Put text.old text.new (numbers (cells_of row.now k)) }
{
    for (q, &c) in row.class.iter().enumerate() {
        if c == k {
            text.put_spaced(row.first + q);
        }
    }
    text.end_line();
}

// The line of a range of one dimension, by the row of its elements' classes.
fn put_range(name: &[u8], dimension: usize, row: &Row, k: u8, text: &mut Printer)
    ensures { Put text.old text.new (range_line name.now dimension (cells_of row.now k)) }
{
    text.put_text(b"dim");
    text.put_spaced(dimension);
    text.put_text(name);
    put_class(row, k, text);
}

// The ranges of one dimension, by the classes of its elements.
fn put_ranges(m: &[u8], lower: &[u8; MOST_ELEMENTS], dimension: usize, text: &mut Printer)
    requires { Accepted m.now × (dimension < top m.now) }
    ensures { Put text.old text.new (row_lines m.now lower.now dimension) }
{
    let first = below_of(m, dimension) + 1;
    let count = count_of(m, dimension);
    let row = Row {
        class: &lower[..count],
        first,
    };
    put_range(b" private", dimension, &row, PRIVATE, text);
    put_range(b" exposed", dimension, &row, EXPOSED, text);
    put_range(b" shared", dimension, &row, SHARED, text);
    put_range(b" copied", dimension, &row, COPIED, text);
}

// The ranges of the dimensions, rising, for the part that the row of cells is of.
pub fn put_dimensions(
    m: &[u8],
    incidence: IncidenceRef,
    class: &[u8],
    holders: &[u8],
    text: &mut Printer,
)
    requires { Inverted m.now (seen incidence) }
    ensures { Put text.old text.new (blocks 0 (top m.now) (dimension_lines m.now class.now holders.now)) }
{
    for dimension in 0..top_of(m) {
        let mut lower = [0u8; MOST_ELEMENTS];
        classify_lowers(m, incidence, class, holders, dimension, &mut lower);
        put_ranges(m, &lower, dimension, text);
    }
}
