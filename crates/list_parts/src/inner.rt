// The lines of a part's cells, and of what passes between it and the others.
pub use crate::lists::{put_exports, put_imports, put_own};
