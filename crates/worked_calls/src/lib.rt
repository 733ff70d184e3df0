// Worked examples: what calls refuse, and the text of a statement. The bytes are those that
// tools/pack gives, which shares no code with the crates that are tried here.
#![tactic(auto)]

#[cfg(test)]
mod lines;
#[cfg(test)]
mod refusals;
