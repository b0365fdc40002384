// What the calls on a part's state share: their definitions (specs/), and the flags that tell what was taken and written.
#![tactic(auto)]

mod flags;
pub mod inner;
mod settled;
mod state;
