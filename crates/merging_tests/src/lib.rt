// Tests of two output types that are to be merged: a fault in either type, differing symbol counts, too many states, a buffer that is too
// short; and the number and place of each.
#![tactic(auto)]

ghost use Rattle.std.specs.Prelude.{◌≡◌, ◌≤◌};
ghost use Rattle.model.specs.Answers as model;
ghost use Rattle.answers.specs.Numbers.{refusal_of};
ghost use Rattle.merging_tests.specs.Answers.{type_handed, fault_number, fault_place, TellsType, test_verdict, types_verdict, result_verdict};

use admission_tables::entries::first_bad_entry;
use admission_tables::sizes::{is_outside, table_length};
use answers::numbered::Refusal;

// An output type as it is handed in, over so many symbols: nothing of it is tested yet.
#[derive(Clone, Copy)]
pub struct OutputType<'a> {
    pub symbols: usize,
    pub states: usize,
    pub table: &'a [u16],
    pub marks: &'a [u16],
}

// Why two types are not merged.
#[derive(Clone, Copy, Debug, PartialEq, Eq)]
pub enum MergingFault {
    // The place of the first type's fault.
    First(usize),
    // The place of the second type's fault.
    Second(usize),
    // The symbol counts differ: the second's.
    Symbols(usize),
    // There are too many pairs of states: how many.
    States(usize),
    // The buffer for the table is too short.
    Table,
    // The buffer for the marks is too short.
    Marks,
}

impl From<MergingFault> for Refusal {
    ghost from_gives = { λ fault refusal. refusal_of refusal ≡ model.refusal (fault_number fault) (fault_place fault) };

    fn from(fault: MergingFault) -> Refusal {
        let (number, place) = match fault {
            MergingFault::First(place) => (51, place),
            MergingFault::Second(place) => (52, place),
            MergingFault::Symbols(count) => (50, count),
            MergingFault::States(count) => (53, count),
            MergingFault::Table => (56, 0),
            MergingFault::Marks => (56, 1),
        };
        Refusal { number, place }
    }
}

// Tests an output type: symbol count, state count, table length, marks length, then table and marks. An error is the lowest place of a
// fault.
fn test_type(tested: &OutputType) -> Result<(), usize>
    ensures { TellsType result tested.now.symbols (type_handed tested.now) }
{
    if is_outside(1, 16, tested.symbols) {
        return Err(0);
    }
    if is_outside(1, 4, tested.states) {
        return Err(1);
    }
    if tested.table.len() != table_length(tested.symbols, tested.states) {
        return Err(2);
    }
    if tested.marks.len() != tested.states {
        return Err(3);
    }
    // No input marks stand before them.
    if let Some(entry) = first_bad_entry(tested.states, &[], tested.table, tested.marks) {
        return Err(4 + entry);
    }
    Ok(())
}

// Tests the first type, then the second, then whether they are over the same number of symbols.
pub fn test_types(first: &OutputType, second: &OutputType) -> Result<(), MergingFault>
    ensures { test_verdict result ≡ types_verdict first.now.symbols (type_handed first.now) second.now.symbols (type_handed second.now) }
{
    test_type(first).map_err(MergingFault::First)?;
    test_type(second).map_err(MergingFault::Second)?;
    if first.symbols != second.symbols {
        return Err(MergingFault::Symbols(second.symbols));
    }
    Ok(())
}

// Tests how many states the merged type has, then whether its table and its marks fit into their buffers.
pub fn test_result(
    symbols: usize,
    states: usize,
    table_room: usize,
    marks_room: usize,
) -> Result<(), MergingFault>
    requires { (1 ≤ symbols) × (symbols ≤ 16) }
    ensures { test_verdict result ≡ result_verdict symbols states table_room marks_room }
{
    if 4 < states {
        return Err(MergingFault::States(states));
    }
    if table_room < table_length(symbols, states) {
        return Err(MergingFault::Table);
    }
    if marks_room < states {
        return Err(MergingFault::Marks);
    }
    Ok(())
}
