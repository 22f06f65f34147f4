// The tests of admission for sizes, lengths, input rows, marks, output entries and parameter counts, and for each table the
// search for its first bad entry.
#![tactic(auto)]

pub mod entries;
pub mod sizes;
