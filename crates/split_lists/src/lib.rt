// The lists of the parts. Each call takes any bytes and numbers.
#![tactic(auto)]

mod calls;
mod lists;

pub use calls::{
    copied_range, exports, exposed_range, halo, imports, interior, local_order, private_range,
    shared_range,
};
