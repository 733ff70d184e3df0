// The values that records hold, and their figures field by field.
#![tactic(auto)]

mod figure;
mod record_value;
pub mod value;
