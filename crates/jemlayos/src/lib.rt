// The calls under the names that C and Rust link: a slice is a pointer and a length, and each answers its refusal's number times 2^32 plus its
// count. `jem_place`, which refuses nothing, answers the place alone.
#![tactic(auto)]

ghost use Rattle.std.specs.Prelude.{◌≡◌};
ghost use Rattle.c_answer.specs.Packed.{packed};
ghost use Rattle.mesh.specs.Mesh.{check_answer};
ghost use Rattle.round.specs.Rounds.{round_input, round_answer, round_out};
ghost use Rattle.split.specs.Lists.{split_input, list_answer, list_out};
ghost use Rattle.split.specs.declared.Wanted.TheVariants.{Interior, Halo, Locals, Imports, Exports, Private, Exposed, Shared, Copied};
ghost use Rattle.part_calls.specs.Calls.{write_answer, write_state, write_out, take_answer, take_state, advance_answer, advance_state, collect_answer, collect_out, points_answer, points_out};
ghost use Rattle.part_start_plan.specs.Start.{inputs, size_answer, start_answer, start_state};
ghost use Rattle.place_search.specs.Places.{place_in, read_for, words_in, saturated};

use c_answer::pack;

// How many cells the mesh has.
#[unsafe(no_mangle)]
pub extern "C" fn jem_check_mesh(mesh: &[u8]) -> u64
    ensures { result ≡ packed (check_answer mesh.now) }
{
    pack(mesh_valid::check_mesh(mesh))
}

// One undivided round: the new field at the front of `out`.
#[unsafe(no_mangle)]
pub extern "C" fn jem_round(
    mesh: &[u8],
    stencil: &[u8],
    kind: u32,
    weights: &[u8],
    field: &[u8],
    out: &mut [u8],
) -> u64
    ensures { let I = round_input mesh.now stencil.now kind weights.now field.now in
        (result ≡ packed (round_answer I out.old)) × (out.new ≡ round_out I out.old) }
{
    pack(round::undivided_round(mesh, stencil, kind, weights, field, out))
}

// The interior cells of a part.
#[unsafe(no_mangle)]
pub extern "C" fn jem_interior(
    mesh: &[u8],
    parts: u32,
    owners: &[u8],
    part: u32,
    stencil: &[u8],
    out: &mut [u8],
) -> u64
    ensures { let D = split_input mesh.now parts owners.now stencil.now in
        (result ≡ packed (list_answer D part Interior out.old)) × (out.new ≡ list_out D part Interior out.old) }
{
    pack(split_lists::interior(mesh, parts, owners, part, stencil, out))
}

// The halo cells of a part.
#[unsafe(no_mangle)]
pub extern "C" fn jem_halo(
    mesh: &[u8],
    parts: u32,
    owners: &[u8],
    part: u32,
    stencil: &[u8],
    out: &mut [u8],
) -> u64
    ensures { let D = split_input mesh.now parts owners.now stencil.now in
        (result ≡ packed (list_answer D part Halo out.old)) × (out.new ≡ list_out D part Halo out.old) }
{
    pack(split_lists::halo(mesh, parts, owners, part, stencil, out))
}

// The cells that a part holds, in local order.
#[unsafe(no_mangle)]
pub extern "C" fn jem_locals(
    mesh: &[u8],
    parts: u32,
    owners: &[u8],
    part: u32,
    stencil: &[u8],
    out: &mut [u8],
) -> u64
    ensures { let D = split_input mesh.now parts owners.now stencil.now in
        (result ≡ packed (list_answer D part Locals out.old)) × (out.new ≡ list_out D part Locals out.old) }
{
    pack(split_lists::local_order(mesh, parts, owners, part, stencil, out))
}

// The cells that a part imports from another.
#[unsafe(no_mangle)]
pub extern "C" fn jem_imports(
    mesh: &[u8],
    parts: u32,
    owners: &[u8],
    part: u32,
    stencil: &[u8],
    other: u32,
    out: &mut [u8],
) -> u64
    ensures { let D = split_input mesh.now parts owners.now stencil.now in
        (result ≡ packed (list_answer D part (Imports other) out.old)) × (out.new ≡ list_out D part (Imports other) out.old) }
{
    pack(split_lists::imports(mesh, parts, owners, part, stencil, other, out))
}

// The cells that a part exports to another.
#[unsafe(no_mangle)]
pub extern "C" fn jem_exports(
    mesh: &[u8],
    parts: u32,
    owners: &[u8],
    part: u32,
    stencil: &[u8],
    other: u32,
    out: &mut [u8],
) -> u64
    ensures { let D = split_input mesh.now parts owners.now stencil.now in
        (result ≡ packed (list_answer D part (Exports other) out.old)) × (out.new ≡ list_out D part (Exports other) out.old) }
{
    pack(split_lists::exports(mesh, parts, owners, part, stencil, other, out))
}

// The private elements of a dimension.
#[unsafe(no_mangle)]
pub extern "C" fn jem_private(
    mesh: &[u8],
    parts: u32,
    owners: &[u8],
    part: u32,
    stencil: &[u8],
    dimension: u32,
    out: &mut [u8],
) -> u64
    ensures { let D = split_input mesh.now parts owners.now stencil.now in
        (result ≡ packed (list_answer D part (Private dimension) out.old)) × (out.new ≡ list_out D part (Private dimension) out.old) }
{
    pack(split_lists::private_range(mesh, parts, owners, part, stencil, dimension, out))
}

// The exposed elements of a dimension.
#[unsafe(no_mangle)]
pub extern "C" fn jem_exposed(
    mesh: &[u8],
    parts: u32,
    owners: &[u8],
    part: u32,
    stencil: &[u8],
    dimension: u32,
    out: &mut [u8],
) -> u64
    ensures { let D = split_input mesh.now parts owners.now stencil.now in
        (result ≡ packed (list_answer D part (Exposed dimension) out.old)) × (out.new ≡ list_out D part (Exposed dimension) out.old) }
{
    pack(split_lists::exposed_range(mesh, parts, owners, part, stencil, dimension, out))
}

// The shared elements of a dimension.
#[unsafe(no_mangle)]
pub extern "C" fn jem_shared(
    mesh: &[u8],
    parts: u32,
    owners: &[u8],
    part: u32,
    stencil: &[u8],
    dimension: u32,
    out: &mut [u8],
) -> u64
    ensures { let D = split_input mesh.now parts owners.now stencil.now in
        (result ≡ packed (list_answer D part (Shared dimension) out.old)) × (out.new ≡ list_out D part (Shared dimension) out.old) }
{
    pack(split_lists::shared_range(mesh, parts, owners, part, stencil, dimension, out))
}

// The copied elements of a dimension.
#[unsafe(no_mangle)]
pub extern "C" fn jem_copied(
    mesh: &[u8],
    parts: u32,
    owners: &[u8],
    part: u32,
    stencil: &[u8],
    dimension: u32,
    out: &mut [u8],
) -> u64
    ensures { let D = split_input mesh.now parts owners.now stencil.now in
        (result ≡ packed (list_answer D part (Copied dimension) out.old)) × (out.new ≡ list_out D part (Copied dimension) out.old) }
{
    pack(split_lists::copied_range(mesh, parts, owners, part, stencil, dimension, out))
}

// How many bytes the state of a part needs.
#[unsafe(no_mangle)]
pub extern "C" fn jem_state_size(
    mesh: &[u8],
    parts: u32,
    owners: &[u8],
    part: u32,
    stencil: &[u8],
) -> u64
    ensures { result ≡ packed (size_answer (split_input mesh.now parts owners.now stencil.now) part) }
{
    pack(part_size::state_size(mesh, parts, owners, part, stencil))
}

// Makes the state of a part at round 0.
#[unsafe(no_mangle)]
pub extern "C" fn jem_start(
    mesh: &[u8],
    parts: u32,
    owners: &[u8],
    part: u32,
    stencil: &[u8],
    kind: u32,
    weights: &[u8],
    field: &[u8],
    state: &mut [u8],
) -> u64
    ensures { let I = inputs mesh.now parts owners.now stencil.now kind weights.now field.now in
        (result ≡ packed (start_answer I part state.old)) × (state.new ≡ start_state I part state.old) }
{
    pack(part_start::start(
        mesh, parts, owners, part, stencil, kind, weights, field, state,
    ))
}

// Gives the message to part `to`.
#[unsafe(no_mangle)]
pub extern "C" fn jem_write(state: &mut [u8], to: u32, out: &mut [u8]) -> u64
    ensures { (result ≡ packed (write_answer state.old to out.old))
        × (state.new ≡ write_state state.old to out.old)
        × (out.new ≡ write_out state.old to out.old) }
{
    pack(part_write::write(state, to, out))
}

// Takes one message.
#[unsafe(no_mangle)]
pub extern "C" fn jem_take(state: &mut [u8], message: &[u8]) -> u64
    ensures { (result ≡ packed (take_answer state.old message.now)) × (state.new ≡ take_state state.old message.now) }
{
    pack(part_take::take(state, message))
}

// Makes one round of the owned cells.
#[unsafe(no_mangle)]
pub extern "C" fn jem_advance(state: &mut [u8]) -> u64
    ensures { (result ≡ packed (advance_answer state.old)) × (state.new ≡ advance_state state.old) }
{
    pack(part_advance::advance(state))
}

// Puts the owned depths into a field.
#[unsafe(no_mangle)]
pub extern "C" fn jem_collect(state: &[u8], round: u32, field: &mut [u8]) -> u64
    ensures { (result ≡ packed (collect_answer state.now round field.old)) × (field.new ≡ collect_out state.now round field.old) }
{
    pack(part_collect::collect(state, round, field))
}

// Gives each point that touches an owned cell, with its depth.
#[unsafe(no_mangle)]
pub extern "C" fn jem_points(state: &[u8], out: &mut [u8]) -> u64
    ensures { (result ≡ packed (points_answer state.now out.old)) × (out.new ≡ points_out state.now out.old) }
{
    pack(part_points::points(state, out))
}

// The place of a cell in a list of words, from 1, and 0 for none. How many numbers were read goes to `read`.
#[unsafe(no_mangle)]
pub extern "C" fn jem_place(list: &[u8], cell: u32, read: &mut u32) -> u64
    ensures { let ws = words_in list.now in (result ≡ place_in cell ws) × (read.new ≡ saturated (read_for cell ws)) }
{
    place_search::place(list, cell, read)
}
