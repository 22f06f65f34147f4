// The text of answers, put on a page: lists of numbers, the answers of the five operations, the line of
// a script's fault, and the help text. What each text is, crate `script` says in its specs/.
#![tactic(auto)]

pub mod appending;
pub mod faults;
pub mod help;
pub mod lists;
