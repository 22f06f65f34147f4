// Document 01's worked contracts: a program without input that asks its questions X1 to X13 and prints a line for each,
// with the case, the answer and its numbers. specs/Lines.antt says what the text is; `stdout` has document 01's lines.
#![tactic(auto)]

mod contracts;
mod questions;

ghost use Rattle.tables.specs.Handed.{handed};
ghost use Rattle.printing.specs.Appending.{Appended, Appends};
ghost use Rattle.worked.specs.Asked.{question_of, HasRoom};
ghost use Rattle.worked.specs.Lines.{line, checks_of_c1, runs_of_c2, judgings_of_c1, lines_of_c3, worked_lines};

use crate::contracts::{c1, c2, c3};
use crate::questions::{Question, ask};
use lines::appending::append_answer_line;
use printing::pages::Page;
use std::io;
use tables::ContractTables;

// The line of a case: its name, then the line of the answer.
fn append_line(page: &mut Page, name: &[u8], contract: ContractTables, question: Question)
    requires { HasRoom question }
    ensures { Appends page.old page.new (line name.now (handed contract.entry) (question_of question.entry)) }
{
    page.append(name);
    append_answer_line(page, ask(&contract, question));
}

// X1 to X5.
fn checks_of_c1(page: &mut Page)
    ensures { Appends page.old page.new checks_of_c1 }
{
    append_line(page, b"X1", c1(&[1, 1]), Question::Check(2));
    append_line(page, b"X2", c1(&[1, 1]), Question::Check(1));
    append_line(page, b"X3", c1(&[0, 1]), Question::Check(1));
    append_line(page, b"X4", c1(&[1, 0]), Question::Check(512));
    append_line(page, b"X5", c1(&[1, 0]), Question::Check(1));
}

// X6 to X8.
fn runs_of_c2(page: &mut Page)
    ensures { Appends page.old page.new runs_of_c2 }
{
    append_line(page, b"X6", c2(), Question::Run(100, &[1, 0, 1, 0, 0]));
    append_line(page, b"X7", c2(), Question::Run(100, &[0]));
    append_line(page, b"X8", c2(), Question::Run(2, &[1, 0, 1, 0, 0]));
}

// X9 to X11.
fn judgings_of_c1(page: &mut Page)
    ensures { Appends page.old page.new judgings_of_c1 }
{
    append_line(page, b"X9", c1(&[1, 1]), Question::Judge(&[1, 0]));
    append_line(page, b"X10", c1(&[1, 1]), Question::Judge(&[1, 0, 0, 0]));
    append_line(page, b"X11", c1(&[1, 1]), Question::Judge(&[]));
}

// X12 and X13.
fn lines_of_c3(page: &mut Page)
    ensures { Appends page.old page.new lines_of_c3 }
{
    append_line(page, b"X12", c3(&[0, 0]), Question::Check(512));
    append_line(page, b"X13", c3(&[1, 1]), Question::Run(100, &[1, 0, 0]));
}

// All lines.
fn worked_lines(page: &mut Page)
    ensures { Appends page.old page.new worked_lines }
{
    checks_of_c1(page);
    runs_of_c2(page);
    judgings_of_c1(page);
    lines_of_c3(page);
}

// The same, put at the front of a buffer: how many bytes they are.
fn worked(out: &mut [u8]) -> usize
    ensures { Appended out.old 0 worked_lines result out.new }
{
    let mut page = Page::new(out);
    worked_lines(&mut page);
    page.at
}

fn main(rt: HostRuntime) -> io::Result<()> {
    let mut out = [0; 256];
    let end = worked(&mut out);
    rt.write_all(&out[..end])
}
