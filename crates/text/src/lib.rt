// A statement as text: its lines, written into a lent buffer.
#![tactic(auto)]

pub mod lines;
pub mod money;
