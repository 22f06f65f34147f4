// Merging two output types into one that allows a tree exactly if both do.
//
// `merge` tests what is handed in (crate `merging_tests`), then has the two buffers for the result filled (`merging_pairs`). Where anything
// is refused, nothing is written.
#![tactic(auto)]

ghost use Rattle.model.specs.Merging.{merging};
ghost use Rattle.merging_tests.specs.Answers.{type_handed};
ghost use Rattle.merging.specs.Answers.{merging_answer, Merges};

use merging_pairs::filling::{fill_marks, fill_table};
use merging_pairs::pairs::FewStates;
use merging_tests::{MergingFault, OutputType, test_result, test_types};

// Merges two output types: the table and the marks of the merged type go into the two buffers, whose rest is kept. What comes back is how
// many states it has.
pub fn merge(
    first: &OutputType,
    second: &OutputType,
    merged_table: &mut [u16],
    merged_marks: &mut [u16],
) -> Result<usize, MergingFault>
    ensures { Merges (merging_answer result) merged_table.new merged_marks.new
        (merging first.now.symbols (type_handed first.now) second.now.symbols (type_handed second.now) merged_table.old merged_marks.old) }
{
    test_types(first, second)?;
    let merged = first.states * second.states;
    test_result(
        first.symbols,
        merged,
        merged_table.len(),
        merged_marks.len(),
    )?;
    let states = FewStates {
        first: first.states,
        second: second.states,
    };
    fill_table(
        first.symbols,
        states,
        first.table,
        second.table,
        merged_table,
    );
    fill_marks(states, first.marks, second.marks, merged_marks);
    Ok(merged)
}
