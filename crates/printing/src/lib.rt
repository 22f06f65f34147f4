// Text that is printed: numbers in decimal, and text put behind text on a page, which is a lent buffer.
#![tactic(auto)]

pub mod appending;
pub mod decimals;
pub mod pages;
