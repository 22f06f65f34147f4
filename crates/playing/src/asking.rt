// Questions asked: about a contract, and about the contract of a desk.
ghost use Rattle.std.specs.Prelude.{◌≡◌, ◌≤◌, length};
ghost use Rattle.tables.specs.Handed.{handed};
ghost use Rattle.script.specs.Meaning.{untouched, writes_rows};
ghost use Rattle.answers.specs.Numbers.{numbered};
ghost use Rattle.playing.specs.Desks.{stretch, span, contract_at, Inside, InOrder};
ghost use Rattle.playing.specs.Questions.{asked, Comes, Lends, sets_rows};

use crate::desks::Desk;
use crate::questions::{Lent, Question};
use admission::admit;
use answers::numbered::{Answer, Refusal, of_admission, of_checking, of_judging, of_running};
use checking::check;
use judging::judge;
use running::run;
use script::spans::Span;
use tables::ContractTables;

// Whether an answer comes with a row buffer that is written.
fn writes_rows(answer: Result<Answer, Refusal>) -> bool
    ensures { result ≡ writes_rows (numbered answer) }
{
    match answer {
        Ok(_) => true,
        Err(refusal) => 13 <= refusal.number && refusal.number <= 15,
    }
}

// Whether the row buffer becomes the current row table.
pub fn sets_rows(question: Question, answer: Result<Answer, Refusal>) -> bool
    ensures { result ≡ sets_rows question (numbered answer) }
{
    match question {
        Question::Admit | Question::Judge => false,
        Question::Check(_) | Question::Run(_) => writes_rows(answer),
    }
}

// Asks a question about a contract.
#[tactic(auto, unfolding(crate::specs::Questions::asked))]
pub fn ask(
    question: Question,
    contract: &ContractTables,
    document: &[u16],
    rows: &mut [u16],
    words: &mut [u64],
) -> Result<Answer, Refusal>
    ensures { Comes (asked (handed contract.now) question document.now rows.old words.old) (numbered result) rows.new words.new }
{
    match question {
        Question::Admit => of_admission(admit(contract)),
        Question::Judge => of_judging(judge(contract, document, words)),
        Question::Check(limit) => of_checking(check(contract, limit, rows, words)),
        Question::Run(_) => of_running(run(contract, document, rows)),
    }
}

// The numbers of a span.
fn part(numbers: &[u16], place: Span) -> &[u16]
    requires { Inside 0 (length numbers.now) place }
    ensures { result.now ≡ stretch numbers.now place }
{
    &numbers[place.start..place.end]
}

// The contract of a desk.
fn contract_of<'a>(desk: &Desk, numbers: &'a [u16]) -> ContractTables<'a>
    requires { InOrder desk.now × (desk.now.used ≤ length numbers.now) }
    ensures { handed result ≡ contract_at desk.now numbers.now }
{
    ContractTables {
        symbols: desk.sizes.symbols,
        input_states: desk.sizes.input_states,
        output_states: desk.sizes.output_states,
        counts: part(numbers, desk.tables.counts),
        input_rows: part(numbers, desk.tables.input_rows),
        input_marks: part(numbers, desk.tables.input_marks),
        output_table: part(numbers, desk.tables.output_table),
        output_marks: part(numbers, desk.tables.output_marks),
        nodes: part(numbers, desk.tables.nodes),
        rules: part(numbers, desk.tables.rules),
    }
}

// Asks a question about the contract of a desk, in buffers that hold sevens, with the document that the free numbers up to an end make.
fn ask_afresh(
    desk: Desk,
    question: Question,
    end: usize,
    numbers: &[u16],
    rows: &mut [u16],
    words: &mut [u64],
) -> Result<Answer, Refusal>
    requires { InOrder desk × (desk.used ≤ end) × (end ≤ length numbers.now) }
    ensures { Comes (asked (contract_at desk numbers.now) question (stretch numbers.now (span desk.used end))
        (untouched (length rows.old)) (untouched (length words.old)))
        (numbered result) rows.new words.new }
{
    rows.fill(7);
    words.fill(7);
    let contract = contract_of(&desk, numbers);
    ask(question, &contract, &numbers[desk.used..end], rows, words)
}

// The same with as much of the buffers as is lent.
pub fn ask_lent(
    desk: Desk,
    question: Question,
    lent: Lent,
    end: usize,
    numbers: &[u16],
    rows: &mut [u16],
    words: &mut [u64],
) -> Result<Answer, Refusal>
    requires { InOrder desk × (desk.used ≤ end) × (end ≤ length numbers.now) × (lent.rows ≤ length rows.old) × (lent.words ≤ length words.old) }
    ensures { Lends (asked (contract_at desk numbers.now) question (stretch numbers.now (span desk.used end)) (untouched lent.rows) (untouched lent.words))
        lent (numbered result) rows.old words.old rows.new words.new }
{
    ask_afresh(
        desk,
        question,
        end,
        numbers,
        &mut rows[..lent.rows],
        &mut words[..lent.words],
    )
}
