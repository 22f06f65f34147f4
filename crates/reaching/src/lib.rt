// The table of lists, once for a contract: for each symbol its rules and its input rows, in chains, and the nodes that its rules
// reach, in ascending order, so that a node stands after what it refers to.
#![tactic(auto)]

ghost use Rattle.std.specs.Prelude.{◌≡◌, true, ℕ, ◌+◌, ◌*◌, ◌/◌, ◌<◌, ◌≤◌, length};
ghost use Rattle.model.specs.Tables.{input_row_count, node_count, rule_at, rule_count};
ghost use Rattle.model.proofs.Laws.Established.{GoodNodes};
ghost use Rattle.kind_words.specs.Sizes.{rule_symbols, most_rows, most_nodes, most_rules, next_rows};
ghost use Rattle.kind_words.specs.Kind.{ListsFor, RulesChained, lists_length};
ghost use Rattle.reaching.specs.Marks.{marked_if, referred_marked, Closed, RulesMarked, counted, RulesGood, RowsGood};
ghost use Rattle.reaching.specs.Listing.{Listing, SymbolListed, ListedTo};

use chains::{
    LISTS, chain_rows, chain_rules, first_rule, has_rules, rows_from, rule_after, store_list,
};
use lanes::{NODES, RULE_SYMBOLS, entry_of};
use tables::{Symbol, node_at, reference_count, rule_at};

// A contract of few nodes has a small room for marks, so that little is cleared.
const FEW_NODES: usize = 16;

// Marks node n, where it is used.
#[tactic(auto, unfolding(crate::specs::Marks::marked_if))]
fn mark(marks: &mut [u16], used: bool, n: u16)
    requires { used ≡ true → n < length marks.old }
    ensures { marks.new ≡ marked_if used marks.old n }
{
    if used {
        marks[usize::from(n)] = 1;
    }
}

// Marks what node n refers to, if it is marked.
fn mark_referred(counts: &[u16], nodes: &[u16], marks: &mut [u16], n: usize)
    requires { GoodNodes counts.now nodes.now × (n < node_count nodes.now) × (node_count nodes.now ≤ length marks.old) }
    ensures { marks.new ≡ referred_marked counts.now nodes.now marks.old n }
{
    if marks[n] == 1 {
        let node = node_at(nodes, n);
        let count = reference_count(counts, node);
        mark(marks, 1 <= count, node.first);
        mark(marks, 2 <= count, node.second);
    }
}

// Marks whatever a marked node refers to, directly or below: the nodes in descending order.
fn mark_all_referred(counts: &[u16], nodes: &[u16], marks: &mut [u16])
    requires { GoodNodes counts.now nodes.now × (node_count nodes.now ≤ length marks.old) }
    ensures { Closed counts.now nodes.now 0 marks.old marks.new }
{
    for n in (0..nodes.len() / 5).rev() {
        mark_referred(counts, nodes, marks, n);
    }
}

// Marks the node of rule r.
fn mark_rule(rules: &[u16], marks: &mut [u16], r: usize)
    requires { (r < rule_count rules.now) × ((rule_at rules.now r).node < length marks.old) }
    ensures { marks.new ≡ marked_if true marks.old (rule_at rules.now r).node }
{
    let rule = rule_at(rules, r);
    mark(marks, true, rule.node);
}

// Marks the nodes of the rules for the symbol: the rules in the symbol's chain. The chain, and no count, tells the next rule: an iterator of
// it would need an own type with its laws for this one line.
fn mark_rules(rules: &[u16], lists: &[u16], symbol: Symbol, marks: &mut [u16])
    requires { ((r : ℕ) → r < rule_count rules.now → (rule_at rules.now r).node < length marks.old) × RulesChained rules.now lists.now × (next_rows rules.now ≤ length lists.now) × (symbol.0 < rule_symbols) }
    ensures { RulesMarked rules.now symbol.0 (rule_count rules.now) marks.new }
{
    let n = rules.len() / 3;
    let mut r = first_rule(lists, symbol);
    while r < n {
        mark_rule(rules, marks, r);
        r = rule_after(lists, r);
    }
}

// Lists the marked nodes below `count` from a place on, and returns how many they are.
fn list_marked(marks: &[u16], count: usize, lists: &mut [u16], start: usize) -> usize
    requires { (count ≤ most_nodes) × (count ≤ length marks.now) × (start + count ≤ length lists.old) }
    ensures { Listing marks.now lists.old lists.new start count result }
{
    let mut listed: usize = 0;
    for n in 0..count {
        lists[start + listed] = entry_of(n);
        listed += usize::from(marks[n] == 1);
    }
    listed
}

// Lists the nodes that the rules for a symbol reach, with room for so many marks, and returns how many they are. The tables are an argument
// each: a struct could not hold by a ghost field that their nodes are good, which is no proposition, as it names a count of symbols.
fn list_reached<const ROOM: usize>(
    counts: &[u16],
    nodes: &[u16],
    rules: &[u16],
    symbol: Symbol,
    lists: &mut [u16],
    start: usize,
) -> usize
    requires { GoodNodes counts.now nodes.now × RulesGood nodes.now rules.now × (symbol.0 < rule_symbols) × RulesChained rules.now lists.old × (next_rows rules.now ≤ start) × (start + node_count nodes.now ≤ length lists.old) × (node_count nodes.now ≤ ROOM) × (ROOM ≤ most_nodes) }
    ensures { SymbolListed counts.now nodes.now rules.now symbol.0 start lists.old lists.new result }
{
    let mut marks = [0u16; ROOM];
    mark_rules(rules, lists, symbol, &mut marks);
    mark_all_referred(counts, nodes, &mut marks);
    list_marked(&marks, nodes.len() / 5, lists, start)
}

// Lists the nodes that the rules for a symbol reach, and returns how many they are. There is room for the marks of few nodes
// or of as many as there may be.
fn list_symbol(
    counts: &[u16],
    nodes: &[u16],
    rules: &[u16],
    symbol: Symbol,
    lists: &mut [u16],
    start: usize,
) -> usize
    requires { GoodNodes counts.now nodes.now × RulesGood nodes.now rules.now × (symbol.0 < rule_symbols) × RulesChained rules.now lists.old × (next_rows rules.now ≤ start) × (start + node_count nodes.now ≤ length lists.old) }
    ensures { SymbolListed counts.now nodes.now rules.now symbol.0 start lists.old lists.new result }
{
    if !has_rules(rules, lists, symbol) {
        0
    } else if nodes.len() / 5 <= FEW_NODES {
        list_reached::<FEW_NODES>(counts, nodes, rules, symbol, lists, start)
    } else {
        list_reached::<NODES>(counts, nodes, rules, symbol, lists, start)
    }
}

// Lists the nodes that each symbol's rules reach, one list after another from a place on, and returns where they end.
fn list_nodes(
    counts: &[u16],
    nodes: &[u16],
    rules: &[u16],
    lists: &mut [u16],
    start: usize,
) -> usize
    requires { GoodNodes counts.now nodes.now × RulesGood nodes.now rules.now × RulesChained rules.now lists.old × (next_rows rules.now ≤ start) × (start + rule_symbols * node_count nodes.now ≤ length lists.old) × (length lists.old < 65536) }
    ensures { ListedTo counts.now nodes.now rules.now start rule_symbols result lists.old lists.new }
{
    let mut end: usize = start;
    for s in 0..RULE_SYMBOLS {
        let symbol = Symbol(s as u16);
        let count = list_symbol(counts, nodes, rules, symbol, lists, end);
        store_list(lists, symbol, end, count);
        end += count;
    }
    end
}

// From where on the table of lists has the nodes.
fn nodes_from(rules: &[u16], rows: &[u16]) -> usize
    requires { (rule_count rules.now ≤ most_rules) × (input_row_count rows.now ≤ most_rows) }
    ensures { result ≡ next_rows rules.now + input_row_count rows.now }
{
    rows_from(rules) + rows.len() / 4
}

// How many numbers the table of lists takes at most.
pub fn lists_length(rows: &[u16], nodes: &[u16], rules: &[u16]) -> usize
    requires { (input_row_count rows.now ≤ most_rows) × (node_count nodes.now ≤ most_nodes) × (rule_count rules.now ≤ most_rules) }
    ensures { result ≡ lists_length rows.now nodes.now rules.now }
{
    nodes_from(rules, rows) + RULE_SYMBOLS * (nodes.len() / 5)
}

// Room for the table of lists of every contract; in a function of its own, so that proofs see its length alone.
pub fn most_lists() -> [u16; LISTS] {
    [0u16; LISTS]
}

// Fills the table of lists.
pub fn fill_lists(counts: &[u16], rows: &[u16], nodes: &[u16], rules: &[u16], lists: &mut [u16])
    requires { GoodNodes counts.now nodes.now × RulesGood nodes.now rules.now × RowsGood rows.now × (lists_length rows.now nodes.now rules.now ≤ length lists.old) × (length lists.old < 65536) }
    ensures { ListsFor counts.now nodes.now rules.now rows.now lists.new }
{
    chain_rules(rules, lists);
    chain_rows(rows, rows_from(rules), lists);
    list_nodes(counts, nodes, rules, lists, nodes_from(rules, rows));
}
