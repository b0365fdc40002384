// The reaches of all cells as a table, by the walks over the mesh: all that stands here, in `inner`, supposes an accepted mesh and stencil.
#![tactic(auto)]

pub mod inner;
mod table;
