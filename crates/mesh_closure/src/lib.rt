// Closed chains, and no element in no cell's chain: the tests 6 and 7. They suppose the tests before them, so they are in `inner`.
#![tactic(auto)]

pub mod inner;
