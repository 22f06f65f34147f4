// Filling the buffers for the result: the merged table and the merged marks, entry by entry, the rest of the buffers kept.
ghost use Rattle.std.specs.Prelude.{◌≡◌, ◌++◌, ◌*◌, ◌/◌, ◌%◌, ◌+◌, ◌<◌, ◌≤◌, length, drop};
ghost use Rattle.model.specs.Admission.{table_length};
ghost use Rattle.model.specs.Merging.{pair_entry, merged_type};
ghost use Rattle.merging_pairs.specs.Types.{table_only, marks_only, Few, Below, Marks};

use crate::pairs::{FewStates, States, empty_pair, mark_of, next_pair, pair_of, state_of};
use admission_tables::sizes::table_length;
use tables::{OutputState, Symbol};

// A symbol over two states of the merged type.
#[derive(Clone, Copy)]
struct Place {
    symbol: Symbol,
    left: OutputState,
    right: OutputState,
}

// Which symbol over which of so many states entry c + 1 of a table is for: symbols from 1, left states, right states, ascending in that
// order.
fn place_of(states: usize, c: usize) -> Place
    requires { (1 ≤ states) × (states ≤ 4) × (c < 256) }
    ensures symbol_value { result.symbol.0 ≡ 1 + c / (states * states) }
    ensures left_value { result.left.0 ≡ c / states % states }
    ensures right_value { result.right.0 ≡ c % states }
{
    let square = states * states;
    let symbol = (1 + c / square) as u16;
    let left = (c / states % states) as u16;
    let right = (c % states) as u16;
    Place {
        symbol: Symbol(symbol),
        left: OutputState(left),
        right: OutputState(right),
    }
}

// Entry k of the merged table.
fn entry_of(states: FewStates, first: &[u16], second: &[u16], k: usize) -> OutputState
    requires below { Below states.first first.now × Below states.second second.now × (k ≤ 256) }
    ensures { result.0 ≡ pair_entry (table_only states.first first.now) (table_only states.second second.now) k }
{
    let counts = States {
        first: states.first,
        second: states.second,
    };
    if k == 0 {
        return state_of(counts, empty_pair(first, second));
    }
    let merged = states.first * states.second;
    let c = k - 1;
    let place = place_of(merged, c);
    let left = pair_of(counts, place.left);
    let right = pair_of(counts, place.right);
    let next = next_pair(counts, first, second, place.symbol, left, right);
    state_of(counts, next)
}

// Writes the merged table.
pub fn fill_table(
    symbols: usize,
    states: FewStates,
    first: &[u16],
    second: &[u16],
    merged: &mut [u16],
)
    requires symbols { (1 ≤ symbols) × (symbols ≤ 16) }
    requires below { Below states.first first.now × Below states.second second.now }
    requires second_in_bounds { table_length symbols (states.first * states.second) ≤ length merged.old }
    ensures { merged.new ≡ (merged_type symbols (table_only states.first first.now) (table_only states.second second.now)).table
        ++ drop (table_length symbols (states.first * states.second)) merged.old }
{
    let n = table_length(symbols, states.first * states.second);
    for k in 0..n {
        merged[k] = entry_of(states, first, second, k).0;
    }
}

// Writes the merged marks; they do not depend on the symbols, so the promise says 1.
pub fn fill_marks(states: FewStates, first: &[u16], second: &[u16], merged: &mut [u16])
    requires marks { Marks first.now × Marks second.now }
    requires second_in_bounds { states.first * states.second ≤ length merged.old }
    ensures { merged.new ≡ (merged_type 1 (marks_only states.first first.now) (marks_only states.second second.now)).marks
        ++ drop (states.first * states.second) merged.old }
{
    let n = states.first * states.second;
    for q in 0..n {
        merged[q] = mark_of(states, first, second, OutputState(q as u16));
    }
}
