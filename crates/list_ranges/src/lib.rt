// The lines of a part's ranges: all that stands here, in `inner`, supposes classes of the cells.
#![tactic(auto)]

pub mod inner;
mod row;
