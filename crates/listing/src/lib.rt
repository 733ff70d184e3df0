// The records of a packed section in words: a line for each record, and how many of which kinds
// there were, or why the listing stops.
#![tactic(auto)]

pub mod summary;
pub mod tally;
pub mod walk;
