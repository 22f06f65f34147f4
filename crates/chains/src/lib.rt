// The table of lists: how it is read, and the rules and the input rows of each symbol, put into it once for a contract, in
// chains: the table names the first of each symbol, and after each one the next of its symbol.
#![tactic(auto)]

ghost use Rattle.std.specs.Prelude.{◌≡◌, ℕ, ◌+◌, ◌<◌, ◌≤◌, ltb, length, get_or, set};
ghost use Rattle.model.specs.Tables.{input_row, input_row_count, rule_at, rule_count};
ghost use Rattle.kind_words.specs.Sizes.{rule_symbols, most_rows, most_rules, first_rules, first_rows, next_rules, next_rows};
ghost use Rattle.kind_words.specs.Kind.{list_of, with_list, ListInside};
ghost use Rattle.chains.specs.Chaining.{Emptied, Chaining};

use lanes::{INPUT_ROWS, NODES, RULE_SYMBOLS, RULES, entry_of, place_at};
use tables::{Numbered, Symbol, input_row_at, rule_at};

// The table begins with four numbers for each symbol that rules may have: where the list of the nodes that its rules reach starts, how many they
// are, its first rule, and its first input row. Then it has after each rule the next one of its symbol, the same for input
// rows, and the nodes.
const LIST_LENGTHS: usize = RULE_SYMBOLS;

const FIRST_RULES: usize = 2 * RULE_SYMBOLS;

const FIRST_ROWS: usize = 3 * RULE_SYMBOLS;

const NEXT_RULES: usize = 4 * RULE_SYMBOLS;

// How many numbers it takes for the largest contract.
pub const LISTS: usize = NEXT_RULES + RULES + INPUT_ROWS + RULE_SYMBOLS * NODES;

// The list of the symbol: the nodes that its rules reach.
pub fn list_of(lists: &[u16], symbol: Symbol) -> &[u16]
    requires { (symbol.0 < rule_symbols) × (next_rules ≤ length lists.now) × ListInside lists.now symbol.0 }
    ensures { result.now ≡ list_of lists.now symbol.0 }
{
    let start = place_at(lists, symbol.number());
    let end = start + place_at(lists, LIST_LENGTHS + symbol.number());
    &lists[start..end]
}

// Keeps where the list of the symbol starts and how long it is.
pub fn store_list(lists: &mut [u16], symbol: Symbol, start: usize, count: usize)
    requires { (symbol.0 < rule_symbols) × (next_rules ≤ length lists.old) × (start < 65536) × (count < 65536) }
    ensures { lists.new ≡ with_list lists.old symbol.0 start count }
{
    let s = symbol.number();
    lists[s] = entry_of(start);
    lists[LIST_LENGTHS + s] = entry_of(count);
}

// The first rule of the symbol. Rules and input rows have readers of a line each: with the place as an argument a caller could take the one
// for the other.
pub fn first_rule(lists: &[u16], symbol: Symbol) -> usize
    requires { (symbol.0 < rule_symbols) × (next_rules ≤ length lists.now) }
    ensures { result ≡ get_or lists.now (first_rules + symbol.0) 0 }
{
    place_at(lists, FIRST_RULES + symbol.number())
}

// Whether there is a rule for the symbol.
pub fn has_rules(rules: &[u16], lists: &[u16], symbol: Symbol) -> bool
    requires { (symbol.0 < rule_symbols) × (next_rules ≤ length lists.now) }
    ensures { result ≡ ltb (get_or lists.now (first_rules + symbol.0) 0) (rule_count rules.now) }
{
    first_rule(lists, symbol) < rules.len() / 3
}

// The rule after rule r in its chain.
pub fn rule_after(lists: &[u16], r: usize) -> usize
    requires { next_rules + r < length lists.now }
    ensures { result ≡ get_or lists.now (next_rules + r) 0 }
{
    place_at(lists, NEXT_RULES + r)
}

// The first input row of the symbol.
pub fn first_row(lists: &[u16], symbol: Symbol) -> usize
    requires { (symbol.0 < rule_symbols) × (next_rules ≤ length lists.now) }
    ensures { result ≡ get_or lists.now (first_rows + symbol.0) 0 }
{
    place_at(lists, FIRST_ROWS + symbol.number())
}

// The input row after row r in its chain; what follows the rows stands from a place on.
pub fn row_after(lists: &[u16], nexts: usize, r: usize) -> usize
    requires { nexts + r < length lists.now }
    ensures { result ≡ get_or lists.now (nexts + r) 0 }
{
    place_at(lists, nexts + r)
}

// From where on the table has the row after each input row.
pub fn rows_from(rules: &[u16]) -> usize
    ensures { result ≡ next_rows rules.now }
{
    NEXT_RULES + rules.len() / 3
}

// Chains of no numbers below n: the first of each symbol is n.
#[tactic(auto, using(crate::proofs::Parts::emptied))]
fn no_numbers(lists: &mut [u16], firsts: usize, n: usize)
    requires { (firsts + rule_symbols ≤ length lists.old) × (n ≤ most_rows) }
    ensures { Emptied firsts n lists.old lists.new }
{
    lists[firsts..firsts + RULE_SYMBOLS].fill(entry_of(n));
}

// Puts number r before the first of its symbol.
fn link(lists: &mut [u16], firsts: usize, nexts: usize, symbol: Symbol, r: usize)
    requires { (firsts + rule_symbols ≤ length lists.old) × (nexts + r < length lists.old) × (symbol.0 < rule_symbols) × (r ≤ most_rows) }
    ensures { lists.new ≡ set (set lists.old (nexts + r) (get_or lists.old (firsts + symbol.0) 0)) (firsts + symbol.0) r }
{
    let at = firsts + symbol.number();
    lists[nexts + r] = lists[at];
    lists[at] = entry_of(r);
}

// The numbers below n in chains, one for each symbol, by the symbol of each number.
fn chain_numbers<F: Fn(usize) -> Symbol>(
    lists: &mut [u16],
    firsts: usize,
    nexts: usize,
    n: usize,
    symbol_of: F,
)
    requires callable { (r : ℕ) → r < n → F.pre symbol_of r }
    requires small { (r : ℕ) (s : Symbol) → r < n → F.post symbol_of r s → s.0 < rule_symbols }
    requires room { (n ≤ most_rows) × (firsts + rule_symbols ≤ nexts) × (nexts + n ≤ length lists.old) }
    ensures { (of : ℕ → ℕ) → ((r : ℕ) (s : Symbol) → r < n → F.post symbol_of r s → s.0 ≡ of r) → Chaining of n firsts nexts 0 lists.old lists.new }
{
    no_numbers(lists, firsts, n);
    for r in (0..n).rev() {
        link(lists, firsts, nexts, symbol_of(r), r);
    }
}

// The rules in chains.
pub fn chain_rules(rules: &[u16], lists: &mut [u16])
    requires { ((r : ℕ) → r < rule_count rules.now → (rule_at rules.now r).symbol < rule_symbols) × (rule_count rules.now ≤ most_rules) × (next_rows rules.now ≤ length lists.old) }
    ensures { Chaining (λ (r : ℕ). (rule_at rules.now r).symbol) (rule_count rules.now) first_rules next_rules 0 lists.old lists.new }
{
    chain_numbers(lists, FIRST_RULES, NEXT_RULES, rules.len() / 3, |r| {
        rule_at(rules, r).symbol
    });
}

// The input rows in chains, with what follows each row from a place on.
pub fn chain_rows(rows: &[u16], nexts: usize, lists: &mut [u16])
    requires { ((r : ℕ) → r < input_row_count rows.now → (input_row rows.now r).symbol < rule_symbols) × (input_row_count rows.now ≤ most_rows) × (next_rules ≤ nexts) × (nexts + input_row_count rows.now ≤ length lists.old) }
    ensures { Chaining (λ (r : ℕ). (input_row rows.now r).symbol) (input_row_count rows.now) first_rows nexts 0 lists.old lists.new }
{
    chain_numbers(lists, FIRST_ROWS, nexts, rows.len() / 4, |r| {
        input_row_at(rows, r).symbol
    });
}
