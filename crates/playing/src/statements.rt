// A statement done.
ghost use Rattle.std.specs.Prelude.{◌≡◌, List, ℕ, ◌+◌, ◌≤◌, length};
ghost use Rattle.script.specs.Meaning.{step, step_read, most_numbers};
ghost use Rattle.script.specs.declared.statements.Statement.TheVariants as statements;
ghost use Rattle.playing.specs.declared.showing.Printed.TheVariants as printed;
ghost use Rattle.playing.specs.Desks.{kept, stretch, span, label_of, state_of, InOrder};
ghost use Rattle.playing.specs.Plays.{Buffers, Plays, done, count_of, label_after, count_read, label_read};

use crate::answering::{Done, answer};
use crate::desks::{Desk, set_rows, set_size, set_table};
use crate::questions::Question;
use crate::showing::{Printed, show, write};
use script::spans::{Fault, Span};
use script::statements::{Listed, Statement};

// What a question left, under the label that stands. It is put together anew: handed on as it came, each statement's desk would be kept in
// memory and copied word by word, which takes up to as long again as the statement.
fn under(label: Option<Span>, given: Done) -> Done
    ensures label { result.label ≡ label }
    ensures desk { result.desk ≡ given.desk }
    ensures printed { result.printed ≡ given.printed }
{
    Done {
        label,
        desk: given.desk,
        printed: given.printed,
    }
}

// A list of numbers, which are the next free ones.
fn do_list(
    listed: Listed,
    count: usize,
    label: Option<Span>,
    desk: Desk,
    numbers: &mut [u16],
    rows: &mut [u16],
    words: &mut [u64],
    out: &mut [u8],
) -> Done
    requires { InOrder desk × (desk.used + count ≤ length numbers.old) × (length numbers.old ≡ kept + most_numbers) × Buffers rows.old words.old out.old }
    ensures by_index { (text : List ℕ) → Plays (label_of text label) (label_of text result.label)
        (step (state_of (label_of text label) desk numbers.old rows.old words.old) text (statements.List listed count) (stretch numbers.old (span desk.used (desk.used + count))))
        result.desk numbers.new rows.new words.new out.new result.printed }
    ensures label_value { result.label ≡ label }
{
    let end = desk.used + count;
    match listed {
        Listed::Table(table) => Done {
            label,
            desk: set_table(desk, table, end),
            printed: Printed::Nothing,
        },
        Listed::Rows => Done {
            label,
            desk: set_rows(desk, end),
            printed: Printed::Nothing,
        },
        Listed::Judge => {
            let given = answer(label, desk, Question::Judge, end, numbers, rows, words, out);
            under(label, given)
        }
        Listed::Run(room) => {
            let question = Question::Run(usize::from(room));
            let given = answer(label, desk, question, end, numbers, rows, words, out);
            under(label, given)
        }
    }
}

// Does a statement. The numbers of its list are the next free ones.
fn do_one(
    statement: Statement,
    label: Option<Span>,
    desk: Desk,
    numbers: &mut [u16],
    rows: &mut [u16],
    words: &mut [u64],
    tree: &mut [u16],
    out: &mut [u8],
) -> Done
    requires { InOrder desk × (desk.used + count_of statement ≤ length numbers.old) × (length numbers.old ≡ kept + most_numbers) × Buffers rows.old words.old out.old × (length tree.old ≡ 65535) }
    ensures by_index { (text : List ℕ) → Plays (label_of text label) (label_of text result.label)
        (step (state_of (label_of text label) desk numbers.old rows.old words.old) text statement (stretch numbers.old (span desk.used (desk.used + count_of statement))))
        result.desk numbers.new rows.new words.new out.new result.printed }
    ensures label_value { result.label ≡ label_after statement label }
{
    let used = desk.used;
    match statement {
        Statement::Case(name) => Done {
            label: Some(name),
            desk,
            printed: Printed::Nothing,
        },
        Statement::Size(size, value) => Done {
            label,
            desk: set_size(desk, size, usize::from(value)),
            printed: Printed::Nothing,
        },
        Statement::List(listed, count) => do_list(
            listed, count, label, desk, numbers, rows, words, out,
        ),
        Statement::Admit => {
            let question = Question::Admit;
            let given = answer(label, desk, question, used, numbers, rows, words, out);
            under(label, given)
        }
        Statement::Check(limit) => {
            let question = Question::Check(usize::from(limit));
            let given = answer(label, desk, question, used, numbers, rows, words, out);
            under(label, given)
        }
        Statement::Write(row, room) => {
            let room = usize::from(room);
            let printed = write(numbers, desk.rows, usize::from(row), &mut tree[..room], out);
            Done {
                label,
                desk,
                printed,
            }
        }
        Statement::Show => {
            let printed = show(desk.left, rows, words, out);
            Done {
                label,
                desk,
                printed,
            }
        }
    }
}

// Where nothing was read that is done.
fn nothing_done(label: Option<Span>, desk: Desk) -> Done
    ensures { result ≡ done label desk printed.Nothing }
{
    Done {
        label,
        desk,
        printed: Printed::Nothing,
    }
}

// Does what was read: a statement, and nothing where there is none any more or for a fault. The numbers of its list are the next free ones.
pub fn do_statement(
    read: Result<Option<Statement>, Fault>,
    label: Option<Span>,
    desk: Desk,
    numbers: &mut [u16],
    rows: &mut [u16],
    words: &mut [u64],
    tree: &mut [u16],
    out: &mut [u8],
) -> Done
    requires { InOrder desk × (desk.used + count_read read ≤ length numbers.old) × (length numbers.old ≡ kept + most_numbers) × Buffers rows.old words.old out.old × (length tree.old ≡ 65535) }
    ensures by_index { (text : List ℕ) → Plays (label_of text label) (label_of text result.label)
        (step_read (state_of (label_of text label) desk numbers.old rows.old words.old) text read (stretch numbers.old (span desk.used (desk.used + count_read read))))
        result.desk numbers.new rows.new words.new out.new result.printed }
    ensures label_value { result.label ≡ label_read read label }
{
    match read {
        Ok(Some(statement)) => do_one(statement, label, desk, numbers, rows, words, tree, out),
        Ok(None) => nothing_done(label, desk),
        Err(_) => nothing_done(label, desk),
    }
}
