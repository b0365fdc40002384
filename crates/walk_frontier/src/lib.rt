// The elements that one step of a walk reaches, each gathered once: all that stands here, in `inner`, supposes room for them.
#![tactic(auto)]

pub mod inner;
