// The chains of the cells turned round, so that from an element its cells are found: all that stands here, in `inner`, supposes an accepted mesh.
#![tactic(auto)]

pub mod inner;
mod trails;
