// A slot for each number of a list: figures that may be absent, and may not fit. A slot is itself a
// participant: it answers as the bid or corridor made from its figures, and has only the empty
// schedule where none can be made.
#![tactic(auto)]

pub mod slot;
