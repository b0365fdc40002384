// Global and local cell numbers, which are separate units: one is made from the other only through the part's list, which has the global
// numbers in local order. What supposes something of a number is in `inner`.
#![tactic(auto)]

pub mod inner;

// A cell's number in the mesh.
#[derive(Clone, Copy, Debug, PartialEq, Eq)]
pub struct Global(pub u16);

// A cell's number in a part's local order.
#[derive(Clone, Copy, Debug, PartialEq, Eq)]
pub struct Local(pub u16);
