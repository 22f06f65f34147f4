// Examining a list of kinds for C and Rust: nothing where it is accepted, or why it is not.
ghost use Rattle.std.specs.Prelude.{◌≡◌};
ghost use Rattle.model.specs.Tables.{contract};
ghost use Rattle.model.specs.Examining.{examining};
ghost use Rattle.examining.specs.Answers.{examining_verdict};
ghost use Rattle.goosedawn_c.specs.Refusals.{told_of};

use crate::refusal::{Told, tell};
use answers::numbered::Refusal;
use examining::{ExaminingRefusal, examine};
use tables::ContractTables;

// The number and the place of an answer.
fn tell_examined(answer: Result<(), ExaminingRefusal>) -> Told
    ensures { result ≡ told_of (examining_verdict answer) }
{
    match answer {
        Ok(()) => tell(0, 0),
        Err(why) => Told::from(Refusal::from(why)),
    }
}

// Examines a list of kinds, five words each, for a contract.
#[unsafe(no_mangle)]
pub extern "C" fn goosedawn_examine(
    symbols: usize,
    input_states: usize,
    output_states: usize,
    counts: &[u16],
    input_rows: &[u16],
    input_marks: &[u16],
    output_table: &[u16],
    output_marks: &[u16],
    nodes: &[u16],
    rules: &[u16],
    words: &[u64],
) -> Told
    ensures { result ≡ told_of (examining (contract symbols input_states output_states counts.now input_rows.now
        input_marks.now output_table.now output_marks.now nodes.now rules.now) words.now) }
{
    let contract = ContractTables {
        symbols,
        input_states,
        output_states,
        counts,
        input_rows,
        input_marks,
        output_table,
        output_marks,
        nodes,
        rules,
    };
    tell_examined(examine(&contract, words))
}
