// The new values of a part's owned cells: all that stands here, in `inner`, supposes a state.
#![tactic(auto)]

pub mod inner;
