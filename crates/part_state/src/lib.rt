// The form of a part's state. Here stands its test, which takes any bytes; what supposes something is in `inner`.
#![tactic(auto)]

pub mod inner;
mod lists;
mod places;
mod state;

pub use lists::up_to;
pub use state::is_state;
