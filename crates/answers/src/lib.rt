// What the five operations answer: each a result, with an error type of its own where it refuses more than the contract.
// specs/Numbers.antt gives document 01's number and values for each case; promises use it. `numbered` has the answers of all operations
// as one type with these numbers.
#![tactic(auto)]

pub mod numbered;

ghost use Rattle.std.specs.Prelude.{◌≡◌};
ghost use Rattle.answers.specs.declared.JudgingRefusal.TheVariants as judging;
ghost use Rattle.answers.specs.declared.CheckingRefusal.TheVariants as checking;
ghost use Rattle.answers.specs.declared.RunningRefusal.TheVariants as running;

use tables::Procedure;

// What is wrong with an expression node.
#[derive(Clone, Copy, Debug, PartialEq, Eq)]
pub enum NodeFault {
    // It is no parameter, no output symbol and no call.
    Tag,
    // What it names is no parameter, no symbol or no procedure.
    Name,
    // A call's child is not 1 (left) or 2 (right).
    Child,
    // It refers to a node whose number is not smaller than its own.
    Reference,
    // A field that it does not use is not 0.
    Unused,
}

// Why a contract is not admitted, with the place.
#[derive(Clone, Copy, Debug, PartialEq, Eq)]
pub enum ContractFault {
    // Symbols, input states, output states or procedures are too few or too many.
    Size(usize),
    // A table's length.
    Length(usize),
    // A bad input row.
    InputRow(usize),
    // A mark above 1, or an output entry that is no state.
    Entry(usize),
    // The procedure of a bad parameter count.
    Count(Procedure),
    // What is wrong with an expression node, and the node.
    Node(NodeFault, usize),
    // A bad rule.
    Rule(usize),
    // More facts than a kind has room for: how many there are.
    Facts(usize),
}

// Why numbers begin with no document, with the place.
#[derive(Clone, Copy, Debug, PartialEq, Eq)]
pub enum DocumentFault {
    // How many numbers there are, where the first 1,023 hold neither a fault nor the end of the tree and more follow.
    Length(usize),
    // The first number that is no symbol, or the end of a tree cut short.
    Number(usize),
}

// What a document is for a contract.
#[derive(Clone, Copy, Debug, PartialEq, Eq)]
pub enum Judgement {
    // Not taken: not of the input type, or not of one root.
    Outside,
    // Taken, with no output outside the output type.
    Sound,
    // Taken, with an output outside the output type.
    Breaking,
}

// A document that is judged.
#[derive(Clone, Copy, Debug, PartialEq, Eq)]
pub struct Judged {
    pub judgement: Judgement,
    // How many numbers it took.
    pub taken: usize,
}

// Why judging refuses.
#[derive(Clone, Copy, Debug, PartialEq, Eq)]
pub enum JudgingRefusal {
    Contract(ContractFault),
    // The kind buffer is not five words.
    Buffer,
    Document(DocumentFault),
}

// A contract that is checked.
#[derive(Clone, Copy, Debug, PartialEq, Eq)]
pub enum Checked {
    // No document breaks the contract: how many kinds there are.
    Pass(usize),
    // The tree of this row breaks the contract.
    Tree(usize),
    // There are more kinds than the limit: the limit, and the greatest height up to which every tree has its kind among those listed.
    Stopped(usize, usize),
}

// Why checking refuses.
#[derive(Clone, Copy, Debug, PartialEq, Eq)]
pub enum CheckingRefusal {
    Contract(ContractFault),
    // The limit, the row buffer or the word buffer has a wrong size.
    Buffer(usize),
}

// A run that is done.
#[derive(Clone, Copy, Debug, PartialEq, Eq)]
pub struct Ran {
    pub root: usize,
    // How many rows are used.
    pub used: usize,
    // How many numbers the document took.
    pub taken: usize,
}

// Why running refuses.
#[derive(Clone, Copy, Debug, PartialEq, Eq)]
pub enum RunningRefusal {
    Contract(ContractFault),
    // The row buffer's length.
    Buffer,
    Document(DocumentFault),
    // The procedure has no rule where it is called.
    NoRule(Procedure),
    // No row is free: how many there are.
    NoRow(usize),
    // A call past the last that is made: how many are made.
    TooManyCalls(usize),
}

// Why writing out refuses.
#[derive(Clone, Copy, Debug, PartialEq, Eq)]
pub enum WritingRefusal {
    // The rows' length.
    Rows,
    // A bad row.
    Row(usize),
    // There is no row of this number.
    Number(usize),
    // The tree does not fit: the buffer's length.
    Room(usize),
}

impl From<ContractFault> for JudgingRefusal {
    ghost from_gives = { λ fault refusal. refusal ≡ judging.Contract fault };

    fn from(fault: ContractFault) -> JudgingRefusal {
        JudgingRefusal::Contract(fault)
    }
}

impl From<DocumentFault> for JudgingRefusal {
    ghost from_gives = { λ fault refusal. refusal ≡ judging.Document fault };

    fn from(fault: DocumentFault) -> JudgingRefusal {
        JudgingRefusal::Document(fault)
    }
}

impl From<ContractFault> for CheckingRefusal {
    ghost from_gives = { λ fault refusal. refusal ≡ checking.Contract fault };

    fn from(fault: ContractFault) -> CheckingRefusal {
        CheckingRefusal::Contract(fault)
    }
}

impl From<ContractFault> for RunningRefusal {
    ghost from_gives = { λ fault refusal. refusal ≡ running.Contract fault };

    fn from(fault: ContractFault) -> RunningRefusal {
        RunningRefusal::Contract(fault)
    }
}

impl From<DocumentFault> for RunningRefusal {
    ghost from_gives = { λ fault refusal. refusal ≡ running.Document fault };

    fn from(fault: DocumentFault) -> RunningRefusal {
        RunningRefusal::Document(fault)
    }
}
