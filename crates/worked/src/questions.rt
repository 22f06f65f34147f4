// Questions to a contract. Each buffer that is lent holds sevens.
ghost use Rattle.std.specs.Prelude.{◌≡◌, ◌≤◌};
ghost use Rattle.answers.specs.Numbers.{numbered};
ghost use Rattle.tables.specs.Handed.{handed};
ghost use Rattle.worked_table.specs.Questions as questions;
ghost use Rattle.worked_table.specs.Questions.{ask};
ghost use Rattle.worked.specs.Asked.{question_of, HasRoom};

use answers::numbered::{Answer, Refusal, of_checking, of_judging, of_running};
use checking::check;
use judging::judge;
use running::run;
use tables::ContractTables;

// A question to a contract.
#[derive(Clone, Copy)]
pub enum Question<'a> {
    // To check it under a limit.
    Check(usize),
    // To judge a document.
    Judge(&'a [u16]),
    // To run its transformation on a document, with room for so many rows.
    Run(usize, &'a [u16]),
}

// Checks a contract under a limit.
fn checked(contract: &ContractTables, limit: usize) -> Result<Answer, Refusal>
    requires { limit ≤ 512 }
    ensures { numbered result ≡ (ask (handed contract.now) (questions.check limit)).answer }
{
    let mut rows = [7; 1536];
    let mut words = [7; 2560];
    of_checking(check(
        contract,
        limit,
        &mut rows[..3 * limit],
        &mut words[..5 * limit],
    ))
}

// Judges a document.
#[tactic(auto, unfolding(worked_table::specs::Questions::ask))]
fn judged(contract: &ContractTables, numbers: &[u16]) -> Result<Answer, Refusal>
    ensures { numbered result ≡ (ask (handed contract.now) (questions.judge numbers.now)).answer }
{
    let mut kind = [7; 5];
    of_judging(judge(contract, numbers, &mut kind))
}

// Runs a transformation on a document, with room for some rows.
fn ran(contract: &ContractTables, room: usize, numbers: &[u16]) -> Result<Answer, Refusal>
    requires { room ≤ 512 }
    ensures { numbered result ≡ (ask (handed contract.now) (questions.run room numbers.now)).answer }
{
    let mut rows = [7; 1536];
    of_running(run(contract, numbers, &mut rows[..3 * room]))
}

// The answer to a question.
pub fn ask(contract: &ContractTables, question: Question) -> Result<Answer, Refusal>
    requires { HasRoom question }
    ensures { numbered result ≡ (ask (handed contract.now) (question_of question.entry)).answer }
{
    match question {
        Question::Check(limit) => checked(contract, limit),
        Question::Judge(numbers) => judged(contract, numbers),
        Question::Run(room, numbers) => ran(contract, room, numbers),
    }
}
