// The masks of what each symbol can see of a child's kind: the states that its input rows name on that side, on the right whether the
// child is the empty forest, and the facts of the procedures that its rules call there.
#![tactic(auto)]

ghost use Rattle.std.specs.Prelude.{◌≡◌, ◌+◌, ◌*◌, ◌<◌, ◌≤◌, length};
ghost use Rattle.foundation.specs.Tests.{choose};
ghost use Rattle.tables.specs.Tuples.{input_row_of, node_of};
ghost use Rattle.kind_words.specs.Sizes.{rule_symbols};
ghost use Rattle.prepared.specs.Contract.{contract_of, lists_of};
ghost use Rattle.classes.specs.Masks.{mask_words, mask_in, Covered};
ghost use Rattle.masks.specs.Seen.{state_on, state_bit, states_seen, marks_seen, stored, Sees, AllSee, covered-prop};
ghost use Rattle.masks.specs.Calls.{ones_for, with_call, CallFits, facts_seen};

use blocks::{lane_of_ones, no_facts, put_block};
use chains::{first_row, row_after};
use lanes::{SYMBOLS, entry_of, up};
use numbering::facts_of;
use prepared::Prepared;
use root_marks::empty_mark;
use tables::{InputRow, InputState, Node, Numbered, Procedure, Symbol, input_row_at, node_at};

// How many words a mask has, and the masks of all symbols.
const MASK_WORDS: usize = 5;

pub const MASKS: usize = MASK_WORDS * SYMBOLS;

// A prepared contract with the masks of its symbols on both sides.
#[derive(Clone, Copy)]
pub struct Masked<'a> {
    pub prepared: Prepared<'a>,
    pub left_masks: [u64; MASKS],
    pub right_masks: [u64; MASKS],
    pub ghost covered: { Covered (contract_of prepared) left_masks right_masks } by { covered-prop (contract_of prepared) left_masks right_masks },
}

// The state that an input row names on a side.
fn state_on(row: InputRow, on_right: bool) -> InputState
    ensures { result.0 ≡ state_on on_right (input_row_of row) }
{
    if on_right {
        return row.right;
    }
    row.left
}

// That state as a single bit.
#[tactic(auto, unfolding(crate::specs::Seen::state_bit))]
fn state_bit(row: InputRow, on_right: bool) -> u64
    requires { state_on on_right (input_row_of row) < 64 }
    ensures { result ≡ state_bit (input_row_of row) row.symbol.0 on_right }
{
    let state = state_on(row, on_right);
    up(1, u64::from(state.0))
}

// The states that the symbol's input rows name on a side. The next row is read from the chain, which a range can't follow.
fn states_seen(prepared: &Prepared, symbol: Symbol, on_right: bool) -> u64
    requires { symbol.0 < rule_symbols }
    ensures { result ≡ states_seen (contract_of prepared.now).input.rows symbol.0 on_right }
{
    let lists = prepared.lists();
    let rows = prepared.rows();
    let nexts = prepared.nexts();
    let count = rows.len() / 4;
    let mut word: u64 = 0;
    let mut k = first_row(lists, symbol);
    while k < count {
        word |= state_bit(input_row_at(rows, k), on_right);
        k = row_after(lists, nexts, k);
    }
    word
}

// The marks that a symbol can see on a side.
#[tactic(auto, unfolding(crate::specs::Seen::marks_seen))]
fn marks_seen(on_right: bool) -> u64
    ensures { result ≡ marks_seen on_right }
{
    if on_right {
        return empty_mark();
    }
    0
}

// As many ones as a procedure of that many parameters has facts.
#[tactic(auto, using(crate::specs::Calls::ones_double, crate::specs::Calls::ones_room, crate::specs::Calls::facts_between))]
fn ones_for(output_states: usize, count: u16) -> u64
    requires { (1 ≤ output_states) × (output_states ≤ 4) × (count ≤ 2) }
    ensures { result ≡ ones_for output_states count }
{
    let facts = facts_of(output_states, count) as u64;
    lane_of_ones(facts - 1) * 2 + 1
}

// The number of a side in a node.
fn side_number(on_right: bool) -> u16
    ensures { result ≡ choose on_right 2 1 }
{
    if on_right {
        return 2;
    }
    1
}

// A mask with the facts that a node calls on a side.
#[tactic(auto, unfolding(crate::specs::Calls::with_call))]
fn put_call(prepared: &Prepared, on_right: bool, node: Node, mask: &mut [u64; 6])
    requires { CallFits (contract_of prepared.now).output.states (contract_of prepared.now).transformation.counts prepared.now.parts.offsets (node_of node) }
    ensures { mask.new ≡ with_call (contract_of prepared.now).output.states (contract_of prepared.now).transformation.counts prepared.now.parts.offsets on_right (node_of node) mask.old }
{
    let side = side_number(on_right);
    if (node.tag == 2) & (node.child == side) {
        let p = Procedure(node.name).number();
        let ones = ones_for(prepared.parts.layout.states, prepared.counts()[p]);
        put_block(mask, ones, usize::from(prepared.parts.offsets[p]));
    }
}

// The facts that a symbol can see on a side: those that the nodes on its list call there.
fn facts_seen(prepared: &Prepared, symbol: Symbol, on_right: bool) -> [u64; 6]
    requires { symbol.0 < rule_symbols }
    ensures { result ≡ facts_seen (contract_of prepared.now) prepared.now.parts.offsets (lists_of prepared.now) symbol.0 on_right }
{
    let nodes = prepared.nodes();
    let mut mask = no_facts();
    for &n in prepared.list(symbol) {
        let node = node_at(nodes, usize::from(n));
        put_call(prepared, on_right, node, &mut mask);
    }
    mask
}

// What a symbol can see on a side.
fn mask_of(prepared: &Prepared, symbol: Symbol, on_right: bool) -> [u64; 6]
    requires { symbol.0 < rule_symbols }
    ensures { Sees (contract_of prepared.now) symbol.0 on_right (mask_in result 0) }
{
    let mut mask = facts_seen(prepared, symbol, on_right);
    mask[0] = states_seen(prepared, symbol, on_right) | marks_seen(on_right);
    mask
}

// Puts the mask of a symbol among the masks.
fn store_mask(masks: &mut [u64], symbol: Symbol, mask: &[u64; 6])
    requires { mask_words * symbol.0 + mask_words ≤ length masks.old }
    ensures { masks.new ≡ stored masks.old symbol.0 mask.now }
{
    let start = MASK_WORDS * symbol.number();
    masks[start..start + MASK_WORDS].copy_from_slice(&mask[..MASK_WORDS]);
}

// The masks of all symbols on a side.
fn side_masks(prepared: &Prepared, on_right: bool) -> [u64; MASKS]
    ensures { AllSee (contract_of prepared.now) on_right prepared.now.parts.symbols result }
{
    let mut masks = [0u64; MASKS];
    for s in 1..prepared.parts.symbols {
        let symbol = Symbol(entry_of(s));
        let mask = mask_of(prepared, symbol, on_right);
        store_mask(&mut masks, symbol, &mask);
    }
    masks
}

// A prepared contract with its masks.
#[tactic(auto, using(crate::specs::Seen::covered))]
pub fn with_masks<'a>(prepared: Prepared<'a>) -> Masked<'a>
    ensures { result.prepared ≡ prepared.entry }
{
    Masked {
        prepared,
        left_masks: side_masks(&prepared, false),
        right_masks: side_masks(&prepared, true),
    }
}
