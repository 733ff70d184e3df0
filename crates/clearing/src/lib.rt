// The clearing check: whether an outcome keeps the clearing rules, for three lists of any three
// kinds.
#![tactic(auto)]

pub mod check;
mod fitted;
mod lists;
pub mod outcome;
mod rules;
mod scheduled;
