// The lists of near cells, and the walks that go by them.
pub use crate::levels::walk_near;
pub use crate::rows::near_rows;
