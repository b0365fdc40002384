// The list program's text, put into a lent buffer.
#![tactic(auto)]

mod accepted;
mod pieces;

pub use pieces::list_text;
