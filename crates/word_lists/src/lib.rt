// Words written one after another, and a list of them given: all that stands here, in `inner`, supposes room, or a list that is there.
#![tactic(auto)]

pub mod inner;
