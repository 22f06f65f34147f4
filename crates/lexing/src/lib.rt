// The text of a script: tokens and their places, numbers, the words that begin statements, and lines. specs/ says what
// they are.
#![tactic(auto)]

pub mod numerals;
pub mod tokens;
pub mod words;
