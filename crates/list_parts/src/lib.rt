// The lines of a part's cells and of what passes between it and the others, put into a lent buffer: all that stands here, in `inner`, supposes rows of
// classes or the tables that they are made of.
#![tactic(auto)]

pub mod inner;
mod lists;
