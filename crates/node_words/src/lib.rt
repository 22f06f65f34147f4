// The words of the nodes that a symbol's rules reach: one after another, each once, all assignments of parameter states of a
// node at once.
#![tactic(auto)]

ghost use Rattle.std.specs.Prelude.{◌≡◌, cond, ◌+◌, ◌^◌, ◌<◌, ◌≤◌, eqb, length, get_or};
ghost use Rattle.model.specs.Tables.{node_count};
ghost use Rattle.kind_words.specs.Blocks.{facts_from, widened};
ghost use Rattle.kind_words.specs.Nodes.{output_word, call_word};
ghost use Rattle.kind_words.specs.Listed.{node_step, words_on, AreNodes};
ghost use Rattle.kind_words.specs.Fits.{LayoutFits, OutputFits, ProcedureFits, NodesFit};
ghost use Rattle.lanes.specs.Layouts.{layout_of};

use blocks::{assignments, facts_from, widen};
use lanes::{Layout, PROCEDURES};
use tables::{Numbered, Procedure, Symbol, node_at, output_state_at};

// The facts of a procedure of that many parameters in a kind, from its first fact's number on, as a word of lanes.
fn procedure_word(layout: &Layout, count: u16, number: usize, kind: &[u64; 6]) -> u64
    requires { ProcedureFits (layout_of layout.now) count number }
    ensures { result ≡ widened layout.now.states layout.now.width (layout.now.states ^ count) (facts_from kind.now number) }
{
    let narrow = assignments(layout.states, count);
    widen(
        layout.states,
        layout.width,
        narrow,
        facts_from(kind, number),
    )
}

// The facts that a call asks for: child 1 is the left one.
fn called_word(
    layout: &Layout,
    count: u16,
    number: usize,
    child: u16,
    left: &[u64; 6],
    right: &[u64; 6],
) -> u64
    requires { ProcedureFits (layout_of layout.now) count number }
    ensures { result ≡ cond (eqb child 1) (widened layout.now.states layout.now.width (layout.now.states ^ count) (facts_from left.now number)) (widened layout.now.states layout.now.width (layout.now.states ^ count) (facts_from right.now number)) }
{
    if child == 1 {
        procedure_word(layout, count, number, left)
    } else {
        procedure_word(layout, count, number, right)
    }
}

// The word of a call of a procedure of that many parameters, from its facts.
fn call_word(layout: &Layout, count: u16, facts: u64, words: &[u64], first: u16, second: u16) -> u64
    requires { (1 ≤ count → first < length words.now) × (2 ≤ count → second < length words.now) }
    ensures { result ≡ call_word layout.now.states layout.now.width layout.now.ones layout.now.starts count facts (get_or words.now first 0) (get_or words.now second 0) }
{
    match count {
        0 => layout.spread(layout.ones, facts, 0),
        1 => layout.call_row(facts, 0, layout.ones, words[usize::from(first)]),
        _ => layout.call_two(facts, words[usize::from(first)], words[usize::from(second)]),
    }
}

// The word of an output symbol.
fn output_word(
    layout: &Layout,
    table: &[u16],
    symbol: Symbol,
    words: &[u64],
    first: u16,
    second: u16,
) -> u64
    requires { OutputFits (layout_of layout.now) table.now symbol.0 × (1 ≤ symbol.0 → (first < length words.now) × (second < length words.now)) }
    ensures { result ≡ output_word layout.now.states layout.now.width layout.now.ones table.now symbol.0 (get_or words.now first 0) (get_or words.now second 0) }
{
    if symbol.0 == 0 {
        return layout.at_state(layout.ones, output_state_at(table, 0));
    }
    let start = 1 + (symbol.number() - 1) * layout.states * layout.states;
    layout.symbol_word(
        table,
        start,
        words[usize::from(first)],
        words[usize::from(second)],
    )
}

// The word of a parameter.
fn parameter_word(layout: &Layout, name: u16) -> u64
    ensures { result ≡ cond (eqb name 1) layout.now.first layout.now.second }
{
    if name == 1 {
        layout.first
    } else {
        layout.second
    }
}

// The word of node n, from the words of the nodes that it refers to.
fn node_word(
    layout: &Layout,
    offsets: &[u16; PROCEDURES],
    counts: &[u16],
    table: &[u16],
    nodes: &[u16],
    left: &[u64; 6],
    right: &[u64; 6],
    words: &[u64],
    n: usize,
) -> u64
    requires { NodesFit (layout_of layout.now) offsets.now counts.now table.now nodes.now × (n < node_count nodes.now) × (node_count nodes.now ≤ length words.now) }
    ensures { result ≡ node_step (layout_of layout.now) offsets.now counts.now table.now nodes.now left.now right.now words.now n }
{
    let node = node_at(nodes, n);
    match node.tag {
        0 => parameter_word(layout, node.name),
        1 => output_word(
            layout,
            table,
            Symbol(node.name),
            words,
            node.first,
            node.second,
        ),
        _ => {
            let p = Procedure(node.name).number();
            let count = counts[p];
            let number = usize::from(offsets[p]);
            let facts = called_word(layout, count, number, node.child, left, right);
            call_word(layout, count, facts, words, node.first, node.second)
        }
    }
}

// The words of the nodes on a list, one after another.
pub fn fill_words(
    layout: Layout,
    offsets: &[u16; PROCEDURES],
    counts: &[u16],
    table: &[u16],
    nodes: &[u16],
    list: &[u16],
    left: &[u64; 6],
    right: &[u64; 6],
    words: &mut [u64],
)
    requires { NodesFit (layout_of layout) offsets.now counts.now table.now nodes.now × AreNodes nodes.now list.now × (node_count nodes.now ≤ length words.old) }
    ensures { words.new ≡ words_on (layout_of layout) offsets.now counts.now table.now nodes.now left.now right.now list.now words.old }
{
    for &entry in list {
        let n = usize::from(entry);
        words[n] = node_word(
            &layout, offsets, counts, table, nodes, left, right, words, n,
        );
    }
}
