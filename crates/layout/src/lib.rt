// A record as one word of 128 bits: its kind in the highest four, then the kind's fields, each
// below the one before it, then zeros. One table says what each field is; reading and writing
// both follow from it.
#![tactic(auto)]

pub mod field;
pub mod fields;
pub mod kind;
pub mod packing;
mod table;
