// Refusals 3, 4 and 5: input rows, marks and output entries, parameter counts.
ghost use Rattle.std.specs.Prelude.{◌≡◌, ◌+◌, ◌≤◌, length};
ghost use Rattle.std.specs.Option.{option_map};
ghost use Rattle.foundation.specs.Search.{first_below};
ghost use Rattle.model.specs.Tables.{input_row, input_row_count};
ghost use Rattle.model.specs.Admission.{input_row_wrong, entry_wrong, count_wrong};
ghost use Rattle.tables.specs.Tuples.{input_row_of};

use searching::first_where;
use tables::{
    InputRow, Procedure, count_of, input_row_at, input_state_wrong, number_at, output_state_at,
    output_state_wrong, symbol_wrong,
};

// A state or a symbol of an input row is none, or a row for symbol 0 has children.
fn input_row_wrong(symbols: usize, states: usize, row: InputRow) -> bool
    ensures { result ≡ input_row_wrong symbols states (input_row_of row) }
{
    input_state_wrong(states, row.state)
        | symbol_wrong(symbols, row.symbol)
        | input_state_wrong(states, row.left)
        | input_state_wrong(states, row.right)
        | ((row.symbol.0 == 0) & !((row.left.0 == 0) & (row.right.0 == 0)))
}

// The first bad input row, if there is one.
pub fn first_bad_input_row(symbols: usize, states: usize, rows: &[u16]) -> Option<usize>
    ensures { result ≡ first_below (λ k. input_row_wrong symbols states (input_row rows.now k)) (input_row_count rows.now) }
{
    first_where(rows.len() / 4, |k| {
        input_row_wrong(symbols, states, input_row_at(rows, k))
    })
}

// The number at a place of the input marks, the output table and the output marks laid end to end is bad.
fn entry_wrong(
    output_states: usize,
    input_marks: &[u16],
    output_table: &[u16],
    output_marks: &[u16],
    k: usize,
) -> bool
    requires { length input_marks.now + length output_table.now ≤ 512 }
    ensures { result ≡ entry_wrong output_states input_marks.now output_table.now output_marks.now k }
{
    let table = input_marks.len();
    let marks = table + output_table.len();
    if k < table {
        return 1 < number_at(input_marks, k);
    }
    if k < marks {
        return output_state_wrong(output_states, output_state_at(output_table, k - table));
    }
    1 < number_at(output_marks, k - marks)
}

// The first bad mark or output entry, if there is one.
pub fn first_bad_entry(
    output_states: usize,
    input_marks: &[u16],
    output_table: &[u16],
    output_marks: &[u16],
) -> Option<usize>
    requires { length input_marks.now + length output_table.now + length output_marks.now ≤ 512 }
    ensures { result ≡ first_below (entry_wrong output_states input_marks.now output_table.now output_marks.now)
        (length input_marks.now + length output_table.now + length output_marks.now) }
{
    let n = input_marks.len() + output_table.len() + output_marks.len();
    first_where(n, |k| {
        entry_wrong(output_states, input_marks, output_table, output_marks, k)
    })
}

// A parameter count is above 2, or the start has parameters.
fn count_wrong(counts: &[u16], procedure: Procedure) -> bool
    ensures { result ≡ count_wrong counts.now procedure.0 }
{
    let count = count_of(counts, procedure);
    (2 < count) | ((procedure.0 == 0) & !(count == 0))
}

// The first procedure with a bad parameter count, if there is one.
pub fn first_bad_count(counts: &[u16]) -> Option<Procedure>
    requires { length counts.now ≤ 16 }
    ensures { option_map (λ procedure. procedure.0) result ≡ first_below (count_wrong counts.now) (length counts.now) }
{
    let place = first_where(counts.len(), |k| count_wrong(counts, Procedure(k as u16)))?;
    Some(Procedure(place as u16))
}
