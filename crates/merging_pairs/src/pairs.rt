// Pairs of states, one of each type, and the states of the merged type that stand for them; what the two types give a symbol over two
// pairs, and whether they accept one.
//
// A state of the first type (`StateOf<First>`), one of the second and one of the merged type (an `OutputState`) are types of their own, so
// that code that hands one where another is due does not build.
ghost use Rattle.std.specs.Prelude.{◌≡◌, ◌<◌, ◌≤◌};
ghost use Rattle.model.specs.Tables.{empty_state, next_state, mark_at};
ghost use Rattle.model.specs.Merging.{first_of, second_of, pair_mark};
ghost use Rattle.merging_pairs.specs.Types.{table_only, marks_only, Few, Marks, pair_number};

use std::marker::PhantomData;
use tables::{Numbered, OutputState, Symbol, number_at};

// The first type, as the type that its states are of.
#[derive(Clone, Copy)]
pub struct First;

// The second type.
#[derive(Clone, Copy)]
pub struct Second;

// A state of one of the two types.
#[derive(Clone, Copy)]
pub struct StateOf<T>(pub OutputState, pub PhantomData<T>);

// A state of each type.
#[derive(Clone, Copy)]
pub struct Pair {
    pub first: StateOf<First>,
    pub second: StateOf<Second>,
}

// How many states each type has.
#[derive(Clone, Copy)]
pub struct States {
    pub first: usize,
    pub second: usize,
}

// The same of two types that can be merged: they have four pairs of states at most.
#[derive(Clone, Copy)]
pub struct FewStates {
    pub first: usize,
    pub second: usize,
    ghost few: { Few first second },
}

// The state of the merged type that stands for a pair.
pub fn state_of(states: States, pair: Pair) -> OutputState
    requires { (pair.first.0.0 < 4) × (pair.second.0.0 < 4) × (states.second ≤ 4) }
    ensures { result.0 ≡ pair_number states.second pair }
{
    let count = states.second as u16;
    let number = pair.first.0.0 * count + pair.second.0.0;
    OutputState(number)
}

// The pair that a state of the merged type stands for.
pub fn pair_of(states: States, state: OutputState) -> Pair
    requires { (1 ≤ states.second) × (states.second ≤ 4) }
    ensures first_value { result.first.0.0 ≡ first_of states.second state.0 }
    ensures second_value { result.second.0.0 ≡ second_of states.second state.0 }
{
    let count = states.second as u16;
    let quotient = state.0 / count;
    let remainder = state.0 % count;
    Pair {
        first: StateOf(OutputState(quotient), PhantomData),
        second: StateOf(OutputState(remainder), PhantomData),
    }
}

// The state that the output table of one type gives a symbol over two of its states.
fn next_state<T>(
    states: usize,
    table: &[u16],
    symbol: Symbol,
    left: StateOf<T>,
    right: StateOf<T>,
) -> StateOf<T>
    requires { (states ≤ 4) × (1 ≤ symbol.0) × (symbol.0 ≤ 256) }
    ensures { result.0.0 ≡ next_state (table_only states table.now) symbol.0 left.0.0 right.0.0 }
{
    let row = (symbol.number() - 1) * states + left.0.number();
    let index = 1 + row * states + right.0.number();
    StateOf(OutputState(number_at(table, index)), PhantomData)
}

// What the two types give the empty forest; that does not depend on how many states they have, so the promise says 0.
pub fn empty_pair(first: &[u16], second: &[u16]) -> Pair
    ensures first_value { result.first.0.0 ≡ empty_state (table_only 0 first.now) }
    ensures second_value { result.second.0.0 ≡ empty_state (table_only 0 second.now) }
{
    Pair {
        first: StateOf(OutputState(number_at(first, 0)), PhantomData),
        second: StateOf(OutputState(number_at(second, 0)), PhantomData),
    }
}

// What the two types give a symbol over two pairs.
pub fn next_pair(
    states: States,
    first: &[u16],
    second: &[u16],
    symbol: Symbol,
    left: Pair,
    right: Pair,
) -> Pair
    requires { (states.first ≤ 4) × (states.second ≤ 4) × (1 ≤ symbol.0) × (symbol.0 ≤ 256) }
    ensures first_value { result.first.0.0 ≡ next_state (table_only states.first first.now) symbol.0 left.first.0.0 right.first.0.0 }
    ensures second_value { result.second.0.0 ≡ next_state (table_only states.second second.now) symbol.0 left.second.0.0 right.second.0.0 }
{
    Pair {
        first: next_state::<First>(states.first, first, symbol, left.first, right.first),
        second: next_state::<Second>(states.second, second, symbol, left.second, right.second),
    }
}

// A state's mark in the marks of its type.
fn mark_in<T>(marks: &[u16], state: StateOf<T>) -> u16
    ensures { result ≡ mark_at marks.now state.0.0 }
{
    number_at(marks, state.0.number())
}

// The mark of a state of the merged type: 1 if both states of its pair are accepted.
pub fn mark_of(states: FewStates, first: &[u16], second: &[u16], state: OutputState) -> u16
    requires marks { Marks first.now × Marks second.now }
    ensures { result ≡ pair_mark (marks_only states.first first.now) (marks_only states.second second.now) state.0 }
{
    let counts = States {
        first: states.first,
        second: states.second,
    };
    let pair = pair_of(counts, state);
    mark_in::<First>(first, pair.first) & mark_in::<Second>(second, pair.second)
}
