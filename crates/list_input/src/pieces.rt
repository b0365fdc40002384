// The text of an input: it is cut into its pieces, and cut short they are as long as they are.
ghost use Rattle.std.specs.Prelude.{◌≡◌, cond, [], ◌∷◌, eqb, length, take, drop};
ghost use Rattle.vocabulary.specs.Bytes.{byte_at};
ghost use Rattle.layout.specs.Answers.{refused_as};
ghost use Rattle.mesh.specs.Mesh.{mesh_length};
ghost use Rattle.split.specs.Lists.{split_number};
ghost use Rattle.list_text.specs.Listing.{list_text};
ghost use Rattle.list_text.specs.Printing.{Put};
ghost use Rattle.list_input.specs.Pieces.{Listed, pieces_text};

use crate::accepted::{list_accepted, put_refusal};
use layout::limits::{ELEMENT_PLACES, RECORD_PLACES};
use layout::{Refusal, byte_at};
use list_text::inner::Printer;
use mesh::inner::{cell_count, elements_of, record_count};
use split::inner::test_split;

// The first of the tests up to 10 that refuses. They are asked for the parts 1 and 1, which any map has.
fn test_input(m: &[u8], parts: u32, owners: &[u8], stencil: &[u8]) -> Result<(), Refusal>
    ensures { refused_as result ≡ split_number m.now parts owners.now (1 ∷ 1 ∷ []) stencil.now }
{
    let mut cell = [0u16; RECORD_PLACES];
    let mut ends = [0u16; ELEMENT_PLACES];
    test_split(m, parts, owners, 1, 1, stencil, &mut cell, &mut ends)
}

// Out of line: an input that is too long is told so without the stack that the lists take.
#[inline(never)]
fn list_pieces(m: &[u8], parts: u32, owners: &[u8], stencil: &[u8], text: &mut Printer)
    ensures { Put text.old text.new (pieces_text m.now parts owners.now stencil.now) }
{
    match test_input(m, parts, owners, stencil) {
        Ok(()) => list_accepted(m, parts, owners, stencil, text),
        Err(refusal) => put_refusal(refusal, text),
    }
}

// The first n bytes, or all where there are fewer, and the rest.
fn cut(b: &[u8], n: usize) -> (&[u8], &[u8])
    ensures { (result.0.now ≡ take n b.now) × (result.1.now ≡ drop n b.now) }
{
    let end = b.len().min(n);
    b.split_at(end)
}

// The length of a mesh, by its head.
fn mesh_length(b: &[u8]) -> usize
    ensures { result ≡ mesh_length b.now }
{
    2 * (6 + elements_of(b) + 2 * record_count(b))
}

// The stencil after its length byte; the empty one, which is refused, where it does not have that length.
fn stencil_of(last: &[u8]) -> &[u8]
    ensures { result.now ≡ cond (eqb (length (drop 1 last.now)) (byte_at last.now 0)) (drop 1 last.now) [] }
{
    let (_, stencil) = cut(last, 1);
    if stencil.len() == byte_at(last, 0) as usize {
        stencil
    } else {
        &[]
    }
}

fn list_input(input: &[u8], text: &mut Printer)
    ensures { Put text.old text.new (list_text input.now) }
{
    if 65536 < input.len() {
        return text.put_text(b"too long\n");
    }
    let (m, map) = cut(input, mesh_length(input));
    let parts = u32::from(byte_at(map, 0));
    let (_, rest) = cut(map, 1);
    let (owners, last) = cut(rest, cell_count(input));
    list_pieces(m, parts, owners, stencil_of(last), text);
}

// Puts what the list program prints for an input into a buffer, from its start on and as far as there is room, and gives its length there. In
// 700,000 bytes there is room for the text of any input.
pub fn list_text(input: &[u8], out: &mut [u8]) -> usize
    ensures { Listed out.old out.new result (list_text input.now) }
{
    let mut text = Printer { out, at: 0 };
    list_input(input, &mut text);
    text.at
}
