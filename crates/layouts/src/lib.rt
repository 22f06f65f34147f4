// What the words of a contract's nodes and facts look like, once for the contract: the layout of its lanes, and its
// procedures' offsets.
#![tactic(auto)]

ghost use Rattle.std.specs.Prelude.{◌≡◌, ℕ, ◌<◌, ◌≤◌, length, get_or};
ghost use Rattle.model.specs.Tables.{count_of};
ghost use Rattle.model.specs.Admission.{most_facts};
ghost use Rattle.model.specs.Facts.{offset};
ghost use Rattle.numbering.specs.Counts.{SmallCounts};
ghost use Rattle.kind_words.specs.Lanes.{Sized};
ghost use Rattle.kind_words.specs.Kind.{LayoutFor};
ghost use Rattle.lanes.specs.Layouts.{layout_of};
ghost use Rattle.layouts.specs.LaneWords.{starts_word, parameter_word, Greatest, first_weight};

use blocks::{assignments, lane_of_ones};
use lanes::{Layout, PROCEDURES, up};
use numbering::fact_offset;
use tables::Procedure;

// The first bit of each lane.
fn starts_word(states: usize, width: u64) -> u64
    requires { Sized states width }
    ensures { result ≡ starts_word states width }
{
    let mut word: u64 = 0;
    for q in 0..states {
        word |= up(1, q as u64 * width);
    }
    word
}

// The word of a parameter whose state at assignment c is the digit of c of that weight.
fn parameter_word(states: usize, width: u64, weight: u64) -> u64
    requires { Sized states width × (0 < states) × (0 < weight) }
    ensures { result ≡ parameter_word states width weight }
{
    let mut word: u64 = 0;
    for c in 0..width {
        let state = c / weight % states as u64;
        word |= up(up(1, c), state * width);
    }
    word
}

// The greatest parameter count.
fn greatest_count(counts: &[u16]) -> u16
    requires { (p : ℕ) → count_of counts.now p ≤ 2 }
    ensures { Greatest counts.now result }
{
    let mut greatest: u16 = 0;
    for &count in counts {
        greatest = greatest.max(count);
    }
    greatest
}

// The weight of the first parameter's digit.
fn first_weight(states: u64, greatest: u16) -> u64
    ensures { result ≡ first_weight states greatest }
{
    if greatest == 2 { states } else { 1 }
}

// How the words of a contract are laid out.
#[tactic(auto, using(lanes::proofs::Room::power_small))]
pub fn layout_of(states: usize, counts: &[u16]) -> Layout
    requires { (1 ≤ states) × SmallCounts states counts.now }
    ensures { LayoutFor states counts.now (layout_of result) }
{
    let greatest = greatest_count(counts);
    let width = assignments(states, greatest);
    let ones = lane_of_ones(width);
    let starts = starts_word(states, width);
    let first = parameter_word(states, width, first_weight(states as u64, greatest));
    let second = parameter_word(states, width, 1);
    Layout {
        states,
        width,
        ones,
        starts,
        first,
        second,
    }
}

// A procedure's offset as a table entry.
fn offset_entry(states: usize, counts: &[u16], procedure: Procedure) -> u16
    requires { SmallCounts states counts.now × (procedure.0 < length counts.now) × (offset states counts.now procedure.0 < most_facts) }
    ensures { result ≡ offset states counts.now procedure.0 }
{
    fact_offset(states, counts, procedure) as u16
}

// The offsets of a contract's procedures.
pub fn offsets_of(states: usize, counts: &[u16]) -> [u16; PROCEDURES]
    requires { SmallCounts states counts.now × ((p : ℕ) → p < length counts.now → offset states counts.now p < most_facts) }
    ensures { (p : ℕ) → p < length counts.now → get_or result p 0 ≡ offset states counts.now p }
{
    let mut offsets = [0u16; PROCEDURES];
    for p in 0..counts.len() {
        offsets[p] = offset_entry(states, counts, Procedure(p as u16));
    }
    offsets
}
