// The tables that all lists are read off, and the tests 12 and 13: all that stands here, in `inner`, supposes an accepted mesh, map and stencil.
#![tactic(auto)]

pub mod inner;
mod preparing;
