// The statements of a script, read one at a time. specs/Statements.antt says what they are, specs/Meaning.antt what a
// whole script prints. A text, whether it is cut and a place in it are handed on one by one: of a struct, each promise would name a field
// of a field.
#![tactic(auto)]

pub mod spans;
pub mod statements;
