// What a list call asks for: all that stands here, in `inner`, is for the list calls.
#![tactic(auto)]

pub mod inner;
