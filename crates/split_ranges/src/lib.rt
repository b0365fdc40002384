// The ranges of a part's lower elements, from prepared tables: all that stands here, in `inner`, supposes those.
#![tactic(auto)]

pub mod inner;
