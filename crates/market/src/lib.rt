// The market's words: cells, schedules, prices and needs; what a participant is, and what a bid is.
#![tactic(auto)]

pub mod bid;
pub mod cells;
pub mod participant;
pub mod schedule;
pub mod summing;
pub mod surplus;
