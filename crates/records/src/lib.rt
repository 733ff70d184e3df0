// Packed records of 16 bytes, read from a lent section and written into a lent buffer.
#![tactic(auto)]

pub mod reading;
pub mod writing;

// How many bytes a record has.
const RECORD: usize = 16;
