// How many cells the cells of each part reach: all that stands here, in `inner`, supposes an accepted mesh and stencil.
#![tactic(auto)]

pub mod inner;
