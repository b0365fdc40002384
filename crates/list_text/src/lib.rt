// Text put into a lent buffer, as far as there is room; and the definition of what the list program prints.
#![tactic(auto)]

pub mod inner;
