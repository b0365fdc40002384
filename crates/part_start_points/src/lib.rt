// The points of a part in its state (F-1): all that stands here, in `inner`, supposes the chains of an accepted mesh turned round.
#![tactic(auto)]

pub mod inner;
mod outside;
mod points;
mod trails;
