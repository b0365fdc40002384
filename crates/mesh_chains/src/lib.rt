// The records and elements of the chains: the tests 4 and 5. They suppose the sizes to be right, so they are in `inner`.
#![tactic(auto)]

mod chains;
pub mod inner;
