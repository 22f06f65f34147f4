// Goosedawn for C and Rust: the operations as functions with C's calling convention, over any numbers and slices.
//
// A slice is a pointer, then a length. What comes back is document 01's answer in four numbers; specs/Replies.antt gives
// them, and include/goosedawn.h says in plain words what each function does. Merging two output types, the shorter of two examples and
// examining a list of kinds have modules of their own.
//
// C has neither slices in a struct nor Option and Result: so a contract is ten parameters here, and an answer or a refusal is numbers.
#![tactic(auto)]

pub mod examine;
pub mod merge;
pub mod refusal;
pub mod shorter;

ghost use Rattle.std.specs.Prelude.{◌≡◌};
ghost use Rattle.model.specs.Tables.{contract};
ghost use Rattle.model.specs.Admission as model;
ghost use Rattle.model.specs.Checking.{checking};
ghost use Rattle.model.specs.Judging.{judging};
ghost use Rattle.model.specs.Running.{running};
ghost use Rattle.model.specs.WritingOut.{writing_out};
ghost use Rattle.answers.specs.Numbers.{numbered};
ghost use Rattle.goosedawn_c.specs.Replies.{reply, reply_of, Checks, Judges, Runs, Writes};

use admission::admit;
use answers::numbered::{
    Answer, Refusal, of_admission, of_checking, of_judging, of_running, of_writing,
};
use checking::check;
use judging::judge;
use running::run;
use tables::ContractTables;
use writing::write_out;

// An answer: which one, and its values.
#[repr(C)]
#[derive(Clone, Copy, Debug, PartialEq, Eq)]
pub struct Reply {
    pub answer: usize,
    pub first: usize,
    pub second: usize,
    pub third: usize,
}

fn reply_with(answer: usize, first: usize, second: usize, third: usize) -> Reply
    ensures { result ≡ reply answer first second third }
{
    Reply {
        answer,
        first,
        second,
        third,
    }
}

// The reply of an answer.
fn reply_of(answer: Result<Answer, Refusal>) -> Reply
    ensures { result ≡ reply_of (numbered answer) }
{
    match answer {
        Err(Refusal { number, place }) => reply_with(0, number, place, 0),
        Ok(Answer::Stopped(limit, height)) => reply_with(0, 10, limit, height),
        Ok(Answer::Admitted) => reply_with(1, 0, 0, 0),
        Ok(Answer::Judged(result, taken)) => reply_with(2, result, taken, 0),
        Ok(Answer::Pass(count)) => reply_with(3, count, 0, 0),
        Ok(Answer::Tree(row)) => reply_with(4, row, 0, 0),
        Ok(Answer::Ran(root, used, taken)) => reply_with(5, root, used, taken),
        Ok(Answer::Written(count)) => reply_with(6, count, 0, 0),
    }
}

// Admits a contract, or says why not.
#[unsafe(no_mangle)]
pub extern "C" fn goosedawn_admit(
    symbols: usize,
    input_states: usize,
    output_states: usize,
    counts: &[u16],
    input_rows: &[u16],
    input_marks: &[u16],
    output_table: &[u16],
    output_marks: &[u16],
    nodes: &[u16],
    rules: &[u16],
) -> Reply
    ensures { result ≡ reply_of (model.admit (contract symbols input_states output_states counts.now input_rows.now
        input_marks.now output_table.now output_marks.now nodes.now rules.now)) }
{
    let contract = ContractTables {
        symbols,
        input_states,
        output_states,
        counts,
        input_rows,
        input_marks,
        output_table,
        output_marks,
        nodes,
        rules,
    };
    let answer = admit(&contract);
    reply_of(of_admission(answer))
}

// Judges the document that the numbers begin with; the kind of its tree goes into the kind buffer.
#[unsafe(no_mangle)]
pub extern "C" fn goosedawn_judge(
    symbols: usize,
    input_states: usize,
    output_states: usize,
    counts: &[u16],
    input_rows: &[u16],
    input_marks: &[u16],
    output_table: &[u16],
    output_marks: &[u16],
    nodes: &[u16],
    rules: &[u16],
    numbers: &[u16],
    kind: &mut [u64],
) -> Reply
    ensures { Judges result kind.new (judging (contract symbols input_states output_states counts.now input_rows.now
        input_marks.now output_table.now output_marks.now nodes.now rules.now) numbers.now kind.old) }
{
    let contract = ContractTables {
        symbols,
        input_states,
        output_states,
        counts,
        input_rows,
        input_marks,
        output_table,
        output_marks,
        nodes,
        rules,
    };
    let answer = judge(&contract, numbers, kind);
    reply_of(of_judging(answer))
}

// Checks a contract, listing at most so many kinds: rows and kinds of the trees listed go into the two buffers.
#[unsafe(no_mangle)]
pub extern "C" fn goosedawn_check(
    symbols: usize,
    input_states: usize,
    output_states: usize,
    counts: &[u16],
    input_rows: &[u16],
    input_marks: &[u16],
    output_table: &[u16],
    output_marks: &[u16],
    nodes: &[u16],
    rules: &[u16],
    limit: usize,
    rows: &mut [u16],
    words: &mut [u64],
) -> Reply
    ensures { Checks result rows.new words.new (checking (contract symbols input_states output_states counts.now input_rows.now
        input_marks.now output_table.now output_marks.now nodes.now rules.now) limit rows.old words.old) }
{
    let contract = ContractTables {
        symbols,
        input_states,
        output_states,
        counts,
        input_rows,
        input_marks,
        output_table,
        output_marks,
        nodes,
        rules,
    };
    let answer = check(&contract, limit, rows, words);
    reply_of(of_checking(answer))
}

// Runs a contract's transformation on the document that the numbers begin with; the rows of the tree go into the row buffer.
#[unsafe(no_mangle)]
pub extern "C" fn goosedawn_run(
    symbols: usize,
    input_states: usize,
    output_states: usize,
    counts: &[u16],
    input_rows: &[u16],
    input_marks: &[u16],
    output_table: &[u16],
    output_marks: &[u16],
    nodes: &[u16],
    rules: &[u16],
    numbers: &[u16],
    rows: &mut [u16],
) -> Reply
    ensures { Runs result rows.new (running (contract symbols input_states output_states counts.now input_rows.now
        input_marks.now output_table.now output_marks.now nodes.now rules.now) numbers.now rows.old) }
{
    let contract = ContractTables {
        symbols,
        input_states,
        output_states,
        counts,
        input_rows,
        input_marks,
        output_table,
        output_marks,
        nodes,
        rules,
    };
    let answer = run(&contract, numbers, rows);
    reply_of(of_running(answer))
}

// Writes out the tree of a row.
#[unsafe(no_mangle)]
pub extern "C" fn goosedawn_write_out(rows: &[u16], row: usize, buffer: &mut [u16]) -> Reply
    ensures { Writes result buffer.new (writing_out rows.now row buffer.old) }
{
    let answer = write_out(rows, row, buffer);
    reply_of(of_writing(answer))
}
