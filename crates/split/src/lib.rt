// Part maps. Here stand the tests that take any bytes and numbers; what works in lent space, or on the list of a part, is in `inner`.
#![tactic(auto)]

pub mod inner;
mod maps;
mod owners;
mod units;

pub use maps::{bad_map, bad_shares, is_part};

// The lists of a part that can be asked for: an import or export list names the other part, a range its dimension.
// An enum, and no closures: the definition `list_of`, which the calls promise, is told by its cases.
#[derive(Clone, Copy)]
pub enum Wanted {
    Interior,
    Halo,
    Locals,
    Imports(u32),
    Exports(u32),
    Private(u32),
    Exposed(u32),
    Shared(u32),
    Copied(u32),
}
