// The mesh bytes, and the chains of records in them. What is read of them is in `inner`.
#![tactic(auto)]

pub mod inner;
mod reader;
