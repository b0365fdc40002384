// Walks from cell to cell, by lists of the cells two steps away: all that stands here, in `inner`, supposes an accepted mesh and stencil.
#![tactic(auto)]

pub mod inner;
mod levels;
mod rows;
