// Words of lanes: a symbol and a call, for all assignments of parameter states at once.
//
// A word holds a lane of `width` bits for each output state, one bit for each assignment: bit q * width + c says that
// state q is given at assignment c. `ones` is a lane of ones at state 0, `starts` the first bit of each lane.
#![tactic(auto)]

ghost use Rattle.std.specs.Prelude.{◌≡◌, [], ◌∷◌, ℕ, ◌+◌, ◌*◌, ◌/◌, ◌^◌, ◌<◌, ◌≤◌, length, get_or};
ghost use Rattle.std.specs.Int.Bits.{bit_and};
ghost use Rattle.kind_words.specs.Lanes.{Sized, StatesAt, symbol_row, symbol_word, call_lanes};
ghost use Rattle.kind_words.specs.Fits.{LayoutFits};

use tables::{OutputState, output_state_at};

// The most symbols, procedures, input rows, nodes and rules that an admitted contract has: there is room for so many.
pub const SYMBOLS: usize = 16;

// The symbols that rules may have: stay rules have one more than the others.
pub const RULE_SYMBOLS: usize = SYMBOLS + 1;

pub const PROCEDURES: usize = 16;

pub const INPUT_ROWS: usize = 512;

pub const NODES: usize = 256;

pub const RULES: usize = 256;

// How the words of a contract are laid out: its output states, the bits in a lane, a lane of ones at state 0, the first bit
// of each lane, and the words of the first and the second parameter.
#[derive(Clone, Copy, Debug, PartialEq, Eq)]
pub struct Layout {
    pub states: usize,
    pub width: u64,
    pub ones: u64,
    pub starts: u64,
    pub first: u64,
    pub second: u64,
    ghost fits: { LayoutFits (record { states = states; width = width; ones = ones; starts = starts; first = first; second = second }) },
}

impl Layout {
    // A lane put at an output state.
    pub fn at_state(&self, lane: u64, state: OutputState) -> u64
        requires { (state.0 * self.now.width < 64) × (lane * 2 ^ (state.0 * self.now.width) < 2 ^ 64) }
        ensures { result ≡ lane * 2 ^ (state.0 * self.now.width) }
    {
        at_state(lane, state, self.width)
    }

    // A lane put at every state whose bit of `facts`, `place` further up, is set: the product copies it there.
    pub fn spread(&self, lane: u64, facts: u64, place: u64) -> u64
        requires { (place < 64) × (lane * bit_and (facts / 2 ^ place) self.now.starts < 2 ^ 64) }
        ensures { result ≡ lane * bit_and (facts / 2 ^ place) self.now.starts }
    {
        lane * ((facts >> place) & self.starts)
    }

    // An output symbol over two words.
    pub fn symbol_word(&self, table: &[u16], start: usize, first: u64, second: u64) -> u64
        requires { StatesAt self.now.states start (self.now.states * self.now.states) table.now }
        ensures { result ≡ symbol_word self.now.states self.now.width first second (λ (x : ℕ) (y : ℕ). get_or table.now (start + x * self.now.states + y) 0) self.now.states }
    {
        let mut word: u64 = 0;
        for x in 0..self.states {
            let row = start + x * self.states;
            let lane = lane(first, x as u64 * self.width, self.ones);
            word |= symbol_row(self.states, self.width, table, row, lane, second);
        }
        word
    }

    // A call over the states of its last argument. `lane` has the assignments at which the states chosen for the arguments before
    // are had, `chosen` is the code of those states: bit q * width + chosen * states + y of `facts` is the fact of state q.
    pub fn call_row(&self, facts: u64, chosen: usize, lane: u64, word: u64) -> u64
        requires { (chosen * self.now.states + self.now.states ≤ 64) × (lane < 2 ^ self.now.width) }
        ensures { result ≡ call_lanes self.now.states self.now.width self.now.starts facts lane chosen (word ∷ []) }
    {
        let mut calls: u64 = 0;
        for y in 0..self.states {
            let code = chosen * self.states + y;
            calls |= self.spread(lane & (word >> (y as u64 * self.width)), facts, code as u64);
        }
        calls
    }

    // A call of a procedure of two parameters, over the states of both arguments.
    pub fn call_two(&self, facts: u64, first: u64, second: u64) -> u64
        ensures { result ≡ call_lanes self.now.states self.now.width self.now.starts facts self.now.ones 0 (first ∷ second ∷ []) }
    {
        let mut calls: u64 = 0;
        for x in 0..self.states {
            let lane = self.ones & (first >> (x as u64 * self.width));
            calls |= self.call_row(facts, x, lane, second);
        }
        calls
    }
}

// The entry at a place of a table, as a place.
pub fn place_at(table: &[u16], k: usize) -> usize
    requires { k < length table.now }
    ensures { result ≡ get_or table.now k 0 }
{
    usize::from(table[k])
}

// A number as a table entry.
pub fn entry_of(n: usize) -> u16
    requires { n < 65536 }
    ensures { result ≡ n }
{
    n as u16
}

// A word put some bits up, where it fits.
pub fn up(word: u64, place: u64) -> u64
    requires { (place < 64) × (word * 2 ^ place < 2 ^ 64) }
    ensures { result ≡ word * 2 ^ place }
{
    word << place
}

// A lane put at an output state.
pub fn at_state(lane: u64, state: OutputState, width: u64) -> u64
    requires { (state.0 * width < 64) × (lane * 2 ^ (state.0 * width) < 2 ^ 64) }
    ensures { result ≡ lane * 2 ^ (state.0 * width) }
{
    up(lane, u64::from(state.0) * width)
}

// The bits of a word from a place on, under a mask.
pub fn lane(word: u64, place: u64, ones: u64) -> u64
    requires { place < 64 }
    ensures { result ≡ bit_and (word / 2 ^ place) ones }
{
    (word >> place) & ones
}

// An output symbol over one lane of its first word and all lanes of its second; the states stand in the table from `start`.
pub fn symbol_row(
    states: usize,
    width: u64,
    table: &[u16],
    start: usize,
    first: u64,
    second: u64,
) -> u64
    requires { Sized states width × StatesAt states start states table.now × (first < 2 ^ width) }
    ensures { result ≡ symbol_row states width first second (λ (y : ℕ). get_or table.now (start + y) 0) states }
{
    let mut word: u64 = 0;
    for y in 0..states {
        let state = output_state_at(table, start + y);
        word |= at_state(first & (second >> (y as u64 * width)), state, width);
    }
    word
}
