// What the calls on a state read off its lists.
pub use crate::lists::{count_between, global_of, weight_count};
pub use crate::places::{
    BEFORE_EXPORTS, BEFORE_IMPORTS, CELLS, DEPTH, DEPTHS, FIRST, HELD, KIND, LENGTH, OWNED, PART,
    STEPS, Sizes, TAKEN, WEIGHT_WORDS, WEIGHTS, WRITTEN, sizes_of,
};
