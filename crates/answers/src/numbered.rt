// An answer of any of the five operations, in document 01's numbers.
ghost use Rattle.std.specs.Prelude.{◌≡◌};
ghost use Rattle.answers.specs.Numbers.{numbered, refusal_of, node_fault_number, contract_refusal, document_refusal, judging_refusal, checking_refusal, running_refusal, writing_refusal, admission_answer, judgement_result, judging_answer, checking_answer, running_answer, writing_answer};

use crate::{
    Checked, CheckingRefusal, ContractFault, DocumentFault, Judged, Judgement, JudgingRefusal,
    NodeFault, Ran, RunningRefusal, WritingRefusal,
};
use tables::Numbered;

// The cases of the model's answer in which nothing is refused, with their values.
#[derive(Clone, Copy, Debug, PartialEq, Eq)]
pub enum Answer {
    Admitted,
    // The result, and the numbers taken.
    Judged(usize, usize),
    Tree(usize),
    Pass(usize),
    // The root row, the rows used, and the numbers taken.
    Ran(usize, usize, usize),
    Written(usize),
    // Refusal 10: the limit and the height.
    Stopped(usize, usize),
}

// A refusal in document 01's numbers, which C, scripts and the pages for callers know it by.
#[derive(Clone, Copy, Debug, PartialEq, Eq)]
pub struct Refusal {
    pub number: usize,
    pub place: usize,
}

// The number of a node's fault.
fn node_fault_number(fault: NodeFault) -> usize
    ensures { result ≡ node_fault_number fault }
{
    match fault {
        NodeFault::Tag => 30,
        NodeFault::Name => 31,
        NodeFault::Child => 32,
        NodeFault::Reference => 33,
        NodeFault::Unused => 34,
    }
}

impl From<ContractFault> for Refusal {
    ghost from_gives = { λ fault refusal. refusal_of refusal ≡ contract_refusal fault };

    fn from(fault: ContractFault) -> Refusal {
        let (number, place) = match fault {
            ContractFault::Size(place) => (1, place),
            ContractFault::Length(place) => (2, place),
            ContractFault::InputRow(row) => (3, row),
            ContractFault::Entry(index) => (4, index),
            ContractFault::Count(procedure) => (5, procedure.number()),
            ContractFault::Node(fault, node) => (node_fault_number(fault), node),
            ContractFault::Rule(rule) => (7, rule),
            ContractFault::Facts(total) => (8, total),
        };
        Refusal { number, place }
    }
}

impl From<DocumentFault> for Refusal {
    ghost from_gives = { λ fault refusal. refusal_of refusal ≡ document_refusal fault };

    fn from(fault: DocumentFault) -> Refusal {
        let (number, place) = match fault {
            DocumentFault::Length(numbers) => (11, numbers),
            DocumentFault::Number(place) => (12, place),
        };
        Refusal { number, place }
    }
}

impl From<JudgingRefusal> for Refusal {
    ghost from_gives = { λ why refusal. refusal_of refusal ≡ judging_refusal why };

    fn from(why: JudgingRefusal) -> Refusal {
        match why {
            JudgingRefusal::Contract(fault) => Refusal::from(fault),
            JudgingRefusal::Buffer => Refusal {
                number: 9,
                place: 0,
            },
            JudgingRefusal::Document(fault) => Refusal::from(fault),
        }
    }
}

impl From<CheckingRefusal> for Refusal {
    ghost from_gives = { λ why refusal. refusal_of refusal ≡ checking_refusal why };

    fn from(why: CheckingRefusal) -> Refusal {
        match why {
            CheckingRefusal::Contract(fault) => Refusal::from(fault),
            CheckingRefusal::Buffer(place) => Refusal { number: 9, place },
        }
    }
}

impl From<RunningRefusal> for Refusal {
    ghost from_gives = { λ why refusal. refusal_of refusal ≡ running_refusal why };

    fn from(why: RunningRefusal) -> Refusal {
        match why {
            RunningRefusal::Contract(fault) => Refusal::from(fault),
            RunningRefusal::Buffer => Refusal {
                number: 9,
                place: 0,
            },
            RunningRefusal::Document(fault) => Refusal::from(fault),
            RunningRefusal::NoRule(procedure) => Refusal {
                number: 13,
                place: procedure.number(),
            },
            RunningRefusal::NoRow(rows) => Refusal {
                number: 14,
                place: rows,
            },
            RunningRefusal::TooManyCalls(most) => Refusal {
                number: 15,
                place: most,
            },
        }
    }
}

impl From<WritingRefusal> for Refusal {
    ghost from_gives = { λ why refusal. refusal_of refusal ≡ writing_refusal why };

    fn from(why: WritingRefusal) -> Refusal {
        let (number, place) = match why {
            WritingRefusal::Rows => (16, 0),
            WritingRefusal::Row(row) => (17, row),
            WritingRefusal::Number(row) => (18, row),
            WritingRefusal::Room(numbers) => (19, numbers),
        };
        Refusal { number, place }
    }
}

// The result of a judgement.
fn result_of(judgement: Judgement) -> usize
    ensures { result ≡ judgement_result judgement }
{
    match judgement {
        Judgement::Outside => 0,
        Judgement::Sound => 1,
        Judgement::Breaking => 2,
    }
}

pub fn of_admission(answer: Result<(), ContractFault>) -> Result<Answer, Refusal>
    ensures { numbered result ≡ admission_answer answer }
{
    answer?;
    Ok(Answer::Admitted)
}

pub fn of_judging(answer: Result<Judged, JudgingRefusal>) -> Result<Answer, Refusal>
    ensures { numbered result ≡ judging_answer answer }
{
    let judged = answer?;
    Ok(Answer::Judged(result_of(judged.judgement), judged.taken))
}

pub fn of_checking(answer: Result<Checked, CheckingRefusal>) -> Result<Answer, Refusal>
    ensures { numbered result ≡ checking_answer answer }
{
    Ok(match answer? {
        Checked::Pass(count) => Answer::Pass(count),
        Checked::Tree(row) => Answer::Tree(row),
        Checked::Stopped(limit, height) => Answer::Stopped(limit, height),
    })
}

pub fn of_running(answer: Result<Ran, RunningRefusal>) -> Result<Answer, Refusal>
    ensures { numbered result ≡ running_answer answer }
{
    let ran = answer?;
    Ok(Answer::Ran(ran.root, ran.used, ran.taken))
}

pub fn of_writing(answer: Result<usize, WritingRefusal>) -> Result<Answer, Refusal>
    ensures { numbered result ≡ writing_answer answer }
{
    Ok(Answer::Written(answer?))
}
