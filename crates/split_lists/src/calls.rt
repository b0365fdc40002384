// The public calls. Each writes a list of part `i` as words, and answers their count or its refusal.
ghost use Rattle.std.specs.Prelude.{◌≡◌};
ghost use Rattle.layout.specs.Answers.{answer_of};
ghost use Rattle.split.specs.Lists.{split_input, list_answer, list_out};
ghost use Rattle.split.specs.declared.Wanted.TheVariants.{Interior, Halo, Locals, Imports, Exports, Private, Exposed, Shared, Copied};

use crate::lists::list;
use layout::Refusal;
use split::Wanted;

// The interior of a part: its cells with only its own cells in their reach.
pub fn interior(
    m: &[u8],
    parts: u32,
    owners: &[u8],
    i: u32,
    stencil: &[u8],
    out: &mut [u8],
) -> Result<u32, Refusal>
    ensures { let D = split_input m.now parts owners.now stencil.now in
        (answer_of result ≡ list_answer D i Interior out.old) × (out.new ≡ list_out D i Interior out.old) }
{
    list(Wanted::Interior, m, parts, owners, i, stencil, out)
}

// The halo of a part: its other cells.
pub fn halo(
    m: &[u8],
    parts: u32,
    owners: &[u8],
    i: u32,
    stencil: &[u8],
    out: &mut [u8],
) -> Result<u32, Refusal>
    ensures { let D = split_input m.now parts owners.now stencil.now in
        (answer_of result ≡ list_answer D i Halo out.old) × (out.new ≡ list_out D i Halo out.old) }
{
    list(Wanted::Halo, m, parts, owners, i, stencil, out)
}

// The cells of a part in local order: local numbers count from 1 in this list.
pub fn local_order(
    m: &[u8],
    parts: u32,
    owners: &[u8],
    i: u32,
    stencil: &[u8],
    out: &mut [u8],
) -> Result<u32, Refusal>
    ensures { let D = split_input m.now parts owners.now stencil.now in
        (answer_of result ≡ list_answer D i Locals out.old) × (out.new ≡ list_out D i Locals out.old) }
{
    list(Wanted::Locals, m, parts, owners, i, stencil, out)
}

// What a part imports from another.
pub fn imports(
    m: &[u8],
    parts: u32,
    owners: &[u8],
    i: u32,
    stencil: &[u8],
    from: u32,
    out: &mut [u8],
) -> Result<u32, Refusal>
    ensures { let D = split_input m.now parts owners.now stencil.now in
        (answer_of result ≡ list_answer D i (Imports from) out.old) × (out.new ≡ list_out D i (Imports from) out.old) }
{
    list(Wanted::Imports(from), m, parts, owners, i, stencil, out)
}

// What a part exports to another: what that one imports from it.
pub fn exports(
    m: &[u8],
    parts: u32,
    owners: &[u8],
    i: u32,
    stencil: &[u8],
    to: u32,
    out: &mut [u8],
) -> Result<u32, Refusal>
    ensures { let D = split_input m.now parts owners.now stencil.now in
        (answer_of result ≡ list_answer D i (Exports to) out.old) × (out.new ≡ list_out D i (Exports to) out.old) }
{
    list(Wanted::Exports(to), m, parts, owners, i, stencil, out)
}

// The lower elements of a dimension that no other part holds,
pub fn private_range(
    m: &[u8],
    parts: u32,
    owners: &[u8],
    i: u32,
    stencil: &[u8],
    dimension: u32,
    out: &mut [u8],
) -> Result<u32, Refusal>
    ensures { let D = split_input m.now parts owners.now stencil.now in
        (answer_of result ≡ list_answer D i (Private dimension) out.old) × (out.new ≡ list_out D i (Private dimension) out.old) }
{
    list(
        Wanted::Private(dimension),
        m,
        parts,
        owners,
        i,
        stencil,
        out,
    )
}

// those that touch no other part, though another holds them,
pub fn exposed_range(
    m: &[u8],
    parts: u32,
    owners: &[u8],
    i: u32,
    stencil: &[u8],
    dimension: u32,
    out: &mut [u8],
) -> Result<u32, Refusal>
    ensures { let D = split_input m.now parts owners.now stencil.now in
        (answer_of result ≡ list_answer D i (Exposed dimension) out.old) × (out.new ≡ list_out D i (Exposed dimension) out.old) }
{
    list(
        Wanted::Exposed(dimension),
        m,
        parts,
        owners,
        i,
        stencil,
        out,
    )
}

// those that touch another part, too,
pub fn shared_range(
    m: &[u8],
    parts: u32,
    owners: &[u8],
    i: u32,
    stencil: &[u8],
    dimension: u32,
    out: &mut [u8],
) -> Result<u32, Refusal>
    ensures { let D = split_input m.now parts owners.now stencil.now in
        (answer_of result ≡ list_answer D i (Shared dimension) out.old) × (out.new ≡ list_out D i (Shared dimension) out.old) }
{
    list(Wanted::Shared(dimension), m, parts, owners, i, stencil, out)
}

// and those that it holds and that do not touch it.
pub fn copied_range(
    m: &[u8],
    parts: u32,
    owners: &[u8],
    i: u32,
    stencil: &[u8],
    dimension: u32,
    out: &mut [u8],
) -> Result<u32, Refusal>
    ensures { let D = split_input m.now parts owners.now stencil.now in
        (answer_of result ≡ list_answer D i (Copied dimension) out.old) × (out.new ≡ list_out D i (Copied dimension) out.old) }
{
    list(Wanted::Copied(dimension), m, parts, owners, i, stencil, out)
}
