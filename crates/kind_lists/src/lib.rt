// The list of kinds as it stands in the lent buffers: finding a kind, offering one, why the list ends, and the answer then.
#![tactic(auto)]

pub mod closing;
pub mod listing;

// Why no more kinds are offered to the list.
#[derive(Clone, Copy, Debug, PartialEq, Eq)]
pub enum Stop {
    // This row breaks the contract.
    Breaks(usize),
    // There are more kinds than rows.
    Full,
}

// Why not all kinds are listed.
#[derive(Clone, Copy, Debug, PartialEq, Eq)]
pub enum ListStop {
    // This row breaks the contract.
    Breaks(usize),
    // There are more kinds than rows: this is the greatest height up to which those of all trees are listed.
    Full(usize),
}
