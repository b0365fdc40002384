// Walks, and where they end.
pub use crate::steps::{Ends, Space, Walker, widen};
