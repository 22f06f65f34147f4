// Kinds as they stand in the words of a list, and 1,024 slots beside them, by which a kind is found.
#![tactic(auto)]

pub mod slots;
pub mod stored;
