// The three kinds of participants on a sheet: ordinary bids, whole bids and corridors.
#![tactic(auto)]

pub mod bid;
pub mod bid_figures;
pub mod corridor;
pub mod figures;
pub mod in_range;
mod limited;
pub mod made;
pub mod ordinary;
pub mod rule;
pub mod whole;
