// The plan of a part, made out before its state is written: all that stands here, in `inner`, supposes prepared tables.
#![tactic(auto)]

pub mod inner;
