// Walks over an accepted mesh: all that stands here, in `inner`, supposes an accepted mesh and stencil.
#![tactic(auto)]

pub mod inner;
mod steps;
