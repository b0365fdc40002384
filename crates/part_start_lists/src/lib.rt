// The words of a part's lists in its state: all that stands here, in `inner`, supposes prepared tables and room for the words.
#![tactic(auto)]

mod counts;
mod exports;
pub mod inner;
