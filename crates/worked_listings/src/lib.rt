// Worked examples: listings. The bytes are those that tools/pack gives, which shares no code with
// the crates that are tried here.
#![tactic(auto)]

#[cfg(test)]
mod listings;
