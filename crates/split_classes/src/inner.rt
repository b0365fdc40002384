// The classes of the cells for one part, the cells of a class linked, and how many parts hold each cell.
pub use crate::classes::{CLASSES, HALO, INTERIOR, classify, clear_row};
pub use crate::groups::group_cells;
pub use crate::holders::count_holders;
