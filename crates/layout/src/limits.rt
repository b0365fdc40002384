// Limits of the specification by name, and the sizes of arrays that follow from them.
pub const MOST_ELEMENTS: usize = 2000;

pub const MOST_RECORDS: usize = 12000;

// Entries of all reaches together.
pub const MOST_REACHED: usize = 8000;

// Steps of a stencil, and a weight of a rule.
pub const MOST_STEPS: usize = 8;

pub const MOST_WEIGHT: usize = 15;

pub const MOST_PARTS: usize = 16;

// Cells held by all parts together.
pub const MOST_HELD: usize = 4096;

pub const LAST_ROUND: usize = 60000;

// The bytes of a longest stencil.
pub const STENCIL_BYTES: usize = MOST_STEPS + 1;

// A place for each element's number, and for each record's, from 0 on.
pub const ELEMENT_PLACES: usize = MOST_ELEMENTS + 1;

pub const RECORD_PLACES: usize = MOST_RECORDS + 1;

// The table of all reaches: two words an entry.
pub const TABLE_BYTES: usize = 4 * MOST_REACHED;
