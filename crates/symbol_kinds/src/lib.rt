// What the rules and the input rows of a symbol make over two kinds, before any stay rule, and what those of the empty forest make.
//
// What depends on the contract alone is prepared: the layout of its words, the procedures' offsets, and behind its tables the
// table of lists: for each symbol its rules, its input rows, and the nodes that its rules reach.
#![tactic(auto)]

ghost use Rattle.std.specs.Prelude.{◌≡◌, [], ◌∷◌, ◌++◌, ◌/◌, ◌^◌, ◌<◌, ◌≤◌, length, take};
ghost use Rattle.model.specs.Tables.{input_row, input_row_count, rule_at, rule_count};
ghost use Rattle.model.specs.Kinds.{leaf_kind, symbol_kind};
ghost use Rattle.kind_words.specs.Sizes.{rule_symbols, most_nodes};
ghost use Rattle.kind_words.specs.Blocks.{narrowed, Words};
ghost use Rattle.kind_words.specs.Rules.{with_rule, with_rules};
ghost use Rattle.kind_words.specs.States.{row_state, row_states};
ghost use Rattle.kind_words.specs.Marked.{unmarked_kind};
ghost use Rattle.lanes.specs.Layouts.{layout_of};
ghost use Rattle.prepared.specs.Contract.{contract_of};
ghost use Rattle.symbol_kinds.specs.Steps.{words_for, facts_for, states_for};

use blocks::{assignments, narrow_word, no_facts, put_block};
use chains::{first_row, first_rule, row_after, rule_after};
use lanes::{Layout, NODES, up};
use node_words::fill_words;
use prepared::Prepared;
use root_marks::{marked_empty, marked_over};
use tables::{Numbered, Symbol, input_row_at, rule_at};

// A node's word as the block of a procedure of that many parameters.
fn rule_block(layout: Layout, count: u16, word: u64) -> u64
    requires { (count ≤ 2) × (layout.states ^ count ≤ layout.width) }
    ensures { result ≡ narrowed layout.states layout.width (layout.states ^ count) (layout.width / layout.states ^ count) word }
{
    let narrow = assignments(layout.states, count);
    narrow_word(
        layout.states,
        layout.width,
        narrow,
        layout.width / narrow,
        word,
    )
}

// Rule r's facts joined to a kind.
fn add_rule(prepared: &Prepared, words: &[u64; NODES], kind: &mut [u64; 6], r: usize)
    requires { r < rule_count (contract_of prepared.now).transformation.rules }
    ensures { kind.new ≡ with_rule (layout_of prepared.now.parts.layout) prepared.now.parts.offsets (contract_of prepared.now).transformation.counts (contract_of prepared.now).transformation.rules (rule_at (contract_of prepared.now).transformation.rules r).symbol words.now kind.old r }
{
    let rule = rule_at(prepared.rules(), r);
    let p = rule.procedure.number();
    let count = prepared.counts()[p];
    let block = rule_block(prepared.parts.layout, count, words[usize::from(rule.node)]);
    put_block(kind, block, usize::from(prepared.parts.offsets[p]));
}

// The facts of all rules for the symbol, from the words of the nodes. The next rule is read from the chain, which a range can't follow.
fn facts_for(prepared: &Prepared, symbol: Symbol, words: &[u64; NODES]) -> [u64; 6]
    requires { symbol.0 < rule_symbols }
    ensures { result ≡ facts_for prepared.now symbol.0 words.now }
{
    let lists = prepared.lists();
    let n = prepared.rules().len() / 3;
    let mut kind = no_facts();
    let mut r = first_rule(lists, symbol);
    while r < n {
        add_rule(prepared, words, &mut kind, r);
        r = rule_after(lists, r);
    }
    kind
}

// The state of input row r as a word, if the children reach its states.
fn row_state(prepared: &Prepared, left: u64, right: u64, r: usize) -> u64
    requires { r < input_row_count (contract_of prepared.now).input.rows }
    ensures { result ≡ row_state (contract_of prepared.now).input.rows (input_row (contract_of prepared.now).input.rows r).symbol left right r }
{
    let row = input_row_at(prepared.rows(), r);
    up(
        (left >> u64::from(row.left.0)) & (right >> u64::from(row.right.0)) & 1,
        u64::from(row.state.0),
    )
}

// The input states that the symbol reaches over the states of two kinds. The next row is read from the chain, which a range can't follow.
fn states_for(prepared: &Prepared, symbol: Symbol, left: u64, right: u64) -> u64
    requires { symbol.0 < rule_symbols }
    ensures { result ≡ states_for prepared.now symbol.0 left right }
{
    let lists = prepared.lists();
    let nexts = prepared.nexts();
    let n = prepared.rows().len() / 4;
    let mut states: u64 = 0;
    let mut r = first_row(lists, symbol);
    while r < n {
        states |= row_state(prepared, left, right, r);
        r = row_after(lists, nexts, r);
    }
    states
}

// The words of the nodes that the symbol's rules reach.
fn fill_words_for(
    prepared: &Prepared,
    symbol: Symbol,
    left: &[u64; 6],
    right: &[u64; 6],
    words: &mut [u64],
)
    requires { (symbol.0 < rule_symbols) × (most_nodes ≤ length words.old) }
    ensures { words.new ≡ words_for prepared.now symbol.0 left.now right.now words.old }
{
    fill_words(
        prepared.parts.layout,
        &prepared.parts.offsets,
        prepared.counts(),
        prepared.output_table(),
        prepared.nodes(),
        prepared.list(symbol),
        left,
        right,
        words,
    );
}

// What a symbol makes over two kinds without its marks, with room for the words of the nodes: five words, and a sixth that is 0. The
// stay rules are those of one more symbol.
pub fn unmarked_kind(
    prepared: &Prepared,
    symbol: Symbol,
    left: &[u64; 6],
    right: &[u64; 6],
    room: &mut [u64; NODES],
) -> [u64; 6]
    requires { (symbol.0 < rule_symbols) × Words left.now × Words right.now }
    ensures { result ≡ unmarked_kind (contract_of prepared.now) symbol.0 left.now right.now ++ (0 ∷ []) }
{
    fill_words_for(prepared, symbol, left, right, room);
    let mut kind = facts_for(prepared, symbol, room);
    kind[0] = states_for(prepared, symbol, left[0], right[0]);
    kind
}

// What a symbol makes over two kinds. The right kind tells whether it has one root.
pub fn symbol_kind(
    prepared: &Prepared,
    symbol: Symbol,
    left: &[u64; 6],
    right: &[u64; 6],
    room: &mut [u64; NODES],
) -> [u64; 6]
    requires { (symbol.0 < rule_symbols) × Words left.now × Words right.now }
    ensures { result ≡ symbol_kind (contract_of prepared.now) symbol.0 (take 5 left.now) (take 5 right.now) ++ (0 ∷ []) }
{
    let mut kind = unmarked_kind(prepared, symbol, left, right, room);
    let states = kind[0];
    kind[0] = marked_over(states, right);
    kind
}

// What the empty forest makes. Its rows have child state 0, and its rules call nothing.
pub fn leaf_kind(prepared: &Prepared, room: &mut [u64; NODES]) -> [u64; 6]
    ensures { result ≡ leaf_kind (contract_of prepared.now) ++ (0 ∷ []) }
{
    let below = [1u64, 0, 0, 0, 0, 0];
    let mut kind = unmarked_kind(prepared, Symbol(0), &below, &below, room);
    let states = kind[0];
    kind[0] = marked_empty(states);
    kind
}
