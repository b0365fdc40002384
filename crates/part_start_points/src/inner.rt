// A part's points: how many there are, their words in its state, and whether a cell at one of them is outside a reach.
pub use crate::outside::some_outside;
pub use crate::points::{PointCounts, Sought, count_points, put_points};
