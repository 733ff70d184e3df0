// The names that records carry, each with its number: lists, directions and totals.
#![tactic(auto)]

pub mod lists;
pub mod numbered;
