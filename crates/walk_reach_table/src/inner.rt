// The table of the reaches.
pub use crate::table::{ReachTable, reach_all, reach_table};
