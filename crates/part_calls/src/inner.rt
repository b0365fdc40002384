// What the calls use, where they know that the bytes are there.
pub use crate::flags::{clear, set_flag};
pub use crate::settled::{all_taken, all_written};
pub use crate::state::State;
