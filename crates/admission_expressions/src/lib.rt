// The tests of admission for expression nodes and rules, the fault of the lowest bad node, and the search for the first bad rule.
#![tactic(auto)]

pub mod nodes;
pub mod rules;
pub mod uses;
