// Statements, read one at a time. The numbers of a list go into a lent buffer.
ghost use Rattle.std.specs.Prelude.{◌≡◌, length};
ghost use Rattle.script.specs.Spans.{overwritten};
ghost use Rattle.script.specs.Statements.{name_at, size_at, check_at, write_at, list_at, run_at, word_at, statement_at};

use crate::spans::{Expected, Fault, Span, due_number, read_numbers, whole_span};
use lexing::words::{Size, Table, Word, read_word};

// What a list of numbers is for.
#[derive(Clone, Copy, Debug, PartialEq, Eq)]
pub enum Listed {
    Table(Table),
    Rows,
    Judge,
    // With the rows that there is room for.
    Run(u16),
}

#[derive(Clone, Copy, Debug, PartialEq, Eq)]
pub enum Statement {
    // A label.
    Case(Span),
    Size(Size, u16),
    // How many numbers there are in the buffer.
    List(Listed, usize),
    Admit,
    // The limit.
    Check(u16),
    // The row, and how many numbers there is room for.
    Write(u16, u16),
    Show,
}

// A statement, and the place behind it.
#[derive(Clone, Copy, Debug, PartialEq, Eq)]
pub struct Reading {
    pub statement: Statement,
    pub next: usize,
}

// A fault in a statement, and the place up to which the statement was read: behind its word, behind a number that stands before the fault,
// or before the statement.
#[derive(Clone, Copy, Debug, PartialEq, Eq)]
pub struct Misread {
    pub fault: Fault,
    pub next: usize,
}

// The label behind `case`.
#[tactic(auto, unfolding(crate::specs::Statements::name_at))]
fn read_name(text: &[u8], cut: bool, at: usize) -> Result<Reading, Misread>
    ensures { result ≡ name_at text.now cut at }
{
    let span = whole_span(text, cut, at).map_err(|fault| Misread { fault, next: at })?;
    if text.len() <= span.start {
        let fault = Fault {
            span,
            expected: Expected::Name,
        };
        return Err(Misread { fault, next: at });
    }
    Ok(Reading {
        statement: Statement::Case(span),
        next: span.end,
    })
}

// The number behind the word of a size.
#[tactic(auto, unfolding(crate::specs::Statements::size_at))]
fn read_size(text: &[u8], cut: bool, at: usize, size: Size) -> Result<Reading, Misread>
    ensures { result ≡ size_at text.now cut at size }
{
    let (value, next) = due_number(text, cut, at).map_err(|fault| Misread { fault, next: at })?;
    Ok(Reading {
        statement: Statement::Size(size, value),
        next,
    })
}

// The limit behind `check`.
#[tactic(auto, unfolding(crate::specs::Statements::check_at))]
fn read_check(text: &[u8], cut: bool, at: usize) -> Result<Reading, Misread>
    ensures { result ≡ check_at text.now cut at }
{
    let (limit, next) = due_number(text, cut, at).map_err(|fault| Misread { fault, next: at })?;
    Ok(Reading {
        statement: Statement::Check(limit),
        next,
    })
}

// The row and the room behind `write`.
#[tactic(auto, unfolding(crate::specs::Statements::write_at))]
fn read_write(text: &[u8], cut: bool, at: usize) -> Result<Reading, Misread>
    ensures { result ≡ write_at text.now cut at }
{
    let (row, behind) = due_number(text, cut, at).map_err(|fault| Misread { fault, next: at })?;
    let (room, next) = due_number(text, cut, behind).map_err(|fault| Misread {
        fault,
        next: behind,
    })?;
    Ok(Reading {
        statement: Statement::Write(row, room),
        next,
    })
}

// A list of numbers. It is compiled in, as the other readers are: where it is called, what it answers comes out of memory in pieces, and a
// script of many short lists takes a seventh longer.
#[inline(always)]
#[tactic(auto, unfolding(crate::specs::Statements::list_at))]
fn read_list(
    text: &[u8],
    cut: bool,
    at: usize,
    listed: Listed,
    buffer: &mut [u16],
) -> Result<Reading, Misread>
    ensures value { result ≡ (list_at text.now cut (length buffer.old) at listed).reading }
    ensures buffer_after { buffer.new ≡ overwritten (list_at text.now cut (length buffer.old) at listed).values buffer.old }
{
    let (count, next) = read_numbers(text, cut, at, buffer).map_err(|fault| Misread {
        fault,
        next: at,
    })?;
    Ok(Reading {
        statement: Statement::List(listed, count),
        next,
    })
}

// The rows and the document behind `run`.
#[tactic(auto, unfolding(crate::specs::Statements::run_at))]
fn read_run(text: &[u8], cut: bool, at: usize, buffer: &mut [u16]) -> Result<Reading, Misread>
    ensures value { result ≡ (run_at text.now cut (length buffer.old) at).reading }
    ensures buffer_after { buffer.new ≡ overwritten (run_at text.now cut (length buffer.old) at).values buffer.old }
{
    let (rows, next) = due_number(text, cut, at).map_err(|fault| Misread { fault, next: at })?;
    read_list(text, cut, next, Listed::Run(rows), buffer)
}

// The rest of a statement, behind its word.
#[tactic(auto, unfolding(crate::specs::Statements::word_at))]
fn after_word(
    text: &[u8],
    cut: bool,
    span: Span,
    word: Word,
    buffer: &mut [u16],
) -> Result<Reading, Misread>
    ensures value { result ≡ (word_at text.now cut (length buffer.old) span word).reading }
    ensures buffer_after { buffer.new ≡ overwritten (word_at text.now cut (length buffer.old) span word).values buffer.old }
{
    let end = span.end;
    match word {
        Word::Case => read_name(text, cut, end),
        Word::Size(size) => read_size(text, cut, end, size),
        Word::Table(table) => read_list(text, cut, end, Listed::Table(table), buffer),
        Word::Rows => read_list(text, cut, end, Listed::Rows, buffer),
        Word::Admit => Ok(Reading {
            statement: Statement::Admit,
            next: end,
        }),
        Word::Judge => read_list(text, cut, end, Listed::Judge, buffer),
        Word::Check => read_check(text, cut, end),
        Word::Run => read_run(text, cut, end, buffer),
        Word::Write => read_write(text, cut, end),
        Word::Show => Ok(Reading {
            statement: Statement::Show,
            next: end,
        }),
        Word::Unknown => {
            let fault = Fault {
                span,
                expected: Expected::Statement,
            };
            Err(Misread {
                fault,
                next: span.start,
            })
        }
    }
}

// Reads the statement at a place, if there is one any more: at the end of the text nothing is read, and the place stays `at`.
#[tactic(auto, unfolding(crate::specs::Statements::statement_at))]
pub fn read_statement(
    text: &[u8],
    cut: bool,
    at: usize,
    buffer: &mut [u16],
) -> Result<Option<Reading>, Misread>
    ensures value { result ≡ (statement_at text.now cut (length buffer.old) at).reading }
    ensures buffer_after { buffer.new ≡ overwritten (statement_at text.now cut (length buffer.old) at).values buffer.old }
{
    let span = whole_span(text, cut, at).map_err(|fault| Misread { fault, next: at })?;
    if text.len() <= span.start {
        return Ok(None);
    }
    let word = read_word(&text[span.start..span.end]);
    Ok(Some(after_word(text, cut, span, word, buffer)?))
}
