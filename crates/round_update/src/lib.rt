// The new value of one cell: all that stands here, in `inner`, supposes a table of its reach and the bytes of a field.
#![tactic(auto)]

pub mod inner;
