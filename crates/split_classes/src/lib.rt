// What a part makes of each cell, by one byte a cell, and how many parts hold a cell: all that stands here, in `inner`, supposes the table of the
// reaches.
#![tactic(auto)]

mod classes;
mod groups;
mod holders;
pub mod inner;
