// Playing a script: what its statements have set so far, and each statement done, with the text that it prints.
//
// specs/Desks.antt says which state of `script`'s definition the values and buffers here stand for; the promises are
// equations with that definition's steps.
//
// The buffers of a script (numbers, rows, words, a tree and output) are handed on one by one, and not in a struct: each function is lent
// some of them to read and others to write, and a promise would name a field of a field where it now names a buffer. They are no arrays
// either: the output may be longer than what is asked for. That a desk is in order is asked for beside it, and is no ghost field: the
// definitions of specs/ make desks, and each would have to prove it.
#![tactic(auto)]

pub mod answering;
pub mod asking;
pub mod desks;
pub mod help;
pub mod questions;
pub mod showing;
pub mod statements;
pub mod turns;
pub mod whole_lines;
