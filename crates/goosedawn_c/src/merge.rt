// Merging two output types for C and Rust: how many states the merged type has, or why there is none.
ghost use Rattle.std.specs.Prelude.{◌≡◌};
ghost use Rattle.model.specs.Merging.{merging};
ghost use Rattle.model.specs.Tables.{type_of};
ghost use Rattle.merging.specs.Answers.{merging_answer};
ghost use Rattle.goosedawn_c.specs.MergeReplies.{merging_reply, MergesInto};

use answers::numbered::Refusal;
use merging::merge;
use merging_tests::{MergingFault, OutputType};

// How many states the merged type has; 0 where something is refused, and then why. Number and place are 0 where nothing is, as C has no
// Result.
#[repr(C)]
#[derive(Clone, Copy, Debug, PartialEq, Eq)]
pub struct Merging {
    pub states: usize,
    pub number: usize,
    pub place: usize,
}

// The reply of an answer.
fn merging_of(answer: Result<usize, MergingFault>) -> Merging
    ensures { result ≡ merging_reply (merging_answer answer) }
{
    match answer {
        Ok(states) => Merging {
            states,
            number: 0,
            place: 0,
        },
        Err(fault) => {
            let Refusal { number, place } = Refusal::from(fault);
            Merging {
                states: 0,
                number,
                place,
            }
        }
    }
}

// Merges two output types, each with its symbol count; table and marks of the merged type go into the two buffers.
#[unsafe(no_mangle)]
pub extern "C" fn goosedawn_merge(
    symbols: usize,
    states: usize,
    table: &[u16],
    marks: &[u16],
    second_symbols: usize,
    second_states: usize,
    second_table: &[u16],
    second_marks: &[u16],
    merged_table: &mut [u16],
    merged_marks: &mut [u16],
) -> Merging
    ensures { MergesInto result merged_table.new merged_marks.new
        (merging symbols (type_of states table.now marks.now)
        second_symbols (type_of second_states second_table.now second_marks.now)
        merged_table.old merged_marks.old) }
{
    let first = OutputType {
        symbols,
        states,
        table,
        marks,
    };
    let second = OutputType {
        symbols: second_symbols,
        states: second_states,
        table: second_table,
        marks: second_marks,
    };
    merging_of(merge(&first, &second, merged_table, merged_marks))
}
