// Refusals 1 and 2: sizes out of range, and tables of a wrong length.
ghost use Rattle.std.specs.Prelude.{◌≡◌, ◌≤◌, false, length, get_or};
ghost use Rattle.foundation.specs.Search.{first_below};
ghost use Rattle.model.specs.Admission.{outside, size_wrong, table_length, length_wrong};

use searching::first_where;
use tables::tuples_wrong;

// A number is not one from `least` to `most`.
pub fn is_outside(least: usize, most: usize, n: usize) -> bool
    ensures { result ≡ outside least most n }
{
    !(least..=most).contains(&n)
}

// The place of the first test that holds, if one does.
pub fn first_true(tests: &[bool]) -> Option<usize>
    ensures { result ≡ first_below (λ k. get_or tests.now k false) (length tests.now) }
{
    first_where(tests.len(), |k| tests[k])
}

#[tactic(auto, unfolding(foundation::specs::Search::first))]
// The first size out of range, by its place: symbols, input states, output states, procedures.
pub fn first_bad_size(
    symbols: usize,
    input_states: usize,
    output_states: usize,
    procedures: usize,
) -> Option<usize>
    ensures { result ≡ first_below (size_wrong symbols input_states output_states procedures) 4 }
{
    let wrong = [
        is_outside(1, 16, symbols),
        is_outside(1, 32, input_states),
        is_outside(1, 4, output_states),
        is_outside(1, 16, procedures),
    ];
    first_true(&wrong)
}

// How long an output table is.
pub fn table_length(symbols: usize, output_states: usize) -> usize
    requires { (1 ≤ symbols) × (symbols ≤ 16) × (output_states ≤ 4) }
    ensures { result ≡ table_length symbols output_states }
{
    1 + (symbols - 1) * output_states * output_states
}

// How long the six tables are.
#[derive(Clone, Copy, Debug, PartialEq, Eq)]
pub struct Lengths {
    pub input_rows: usize,
    pub input_marks: usize,
    pub output_table: usize,
    pub output_marks: usize,
    pub nodes: usize,
    pub rules: usize,
}

#[tactic(auto, unfolding(foundation::specs::Search::first))]
// The first table of a wrong length, by its place: input rows, input marks, output table, output marks, nodes, rules.
pub fn first_bad_length(
    symbols: usize,
    input_states: usize,
    output_states: usize,
    lengths: Lengths,
) -> Option<usize>
    requires { (1 ≤ symbols) × (symbols ≤ 16) × (output_states ≤ 4) }
    ensures { result ≡ first_below (length_wrong symbols input_states output_states lengths.input_rows lengths.input_marks
        lengths.output_table lengths.output_marks lengths.nodes lengths.rules) 6 }
{
    let wrong = [
        tuples_wrong(4, 512, lengths.input_rows),
        lengths.input_marks != input_states,
        lengths.output_table != table_length(symbols, output_states),
        lengths.output_marks != output_states,
        tuples_wrong(5, 256, lengths.nodes),
        tuples_wrong(3, 256, lengths.rules),
    ];
    first_true(&wrong)
}
