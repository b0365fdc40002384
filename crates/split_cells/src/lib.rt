// The lists of a part's cells, from prepared tables: all that stands here, in `inner`, supposes those.
#![tactic(auto)]

pub mod inner;
