// Plans: what a run reads, laid out in one table, so that a step of the work is handed one table instead of five.
//
// First stand the parameter counts of 16 procedures; then the right side of the first rule listed for each of 16 procedures and 17 symbols;
// the 256 nodes, five numbers each; the numbers of the document; the place where the tree of each of them ends; the symbol of the stay
// rules; and whether there is one.
#![tactic(auto)]

ghost use Rattle.std.specs.Prelude.{◌≡◌, ◌+◌, ◌*◌, ◌<◌, ◌≤◌, List, ℕ, length, get_or, replicate};
ghost use Rattle.tables.specs.Handed.{handed};
ghost use Rattle.tables.specs.Tuples.{node_of};
ghost use Rattle.plans.specs.Plans.{most_procedures, rule_symbols, most_nodes, most_numbers, entries, entry_of, numbers_place, ends_place, plan_length, overlaid, Sides, SmallRules, has_stay, plan_node, plan_side, plan_stay, plan_sought, plan_sought_number, plan_most, Laid};

use searching::first_where;
use std::marker::Model;
use tables::{ContractTables, Node, Numbered, Procedure, Symbol, rule_at};

// The most of each that there may be. The symbols are those that rules have: S, which stay rules have, is one of them.
const PROCEDURES: usize = 16;

const RULE_SYMBOLS: usize = 17;

pub const MOST_NODES: usize = 256;

const MOST_NUMBERS: usize = 1023;

// How many right sides there are, one for each procedure and symbol.
const ENTRIES: usize = PROCEDURES * RULE_SYMBOLS;

// Where the right sides, the nodes, the document's numbers and the ends of its trees begin, where the stay rules' symbol stands and
// whether there is a stay rule, and how long a plan is.
const SIDES: usize = PROCEDURES;

const NODES: usize = SIDES + ENTRIES;

const NUMBERS: usize = NODES + 5 * MOST_NODES;

const ENDS: usize = NUMBERS + MOST_NUMBERS;

const STAY_SYMBOL: usize = ENDS + MOST_NUMBERS;

const STAYS: usize = STAY_SYMBOL + 1;

pub const LENGTH: usize = STAYS + 1;

// A plan, which clauses see as the list of its numbers.
#[derive(Clone, Copy)]
pub struct Plan {
    pub numbers: [u16; LENGTH],
}

impl Model for Plan {
    ghost Value = { List ℕ };

    ghost view = { λ plan. plan.numbers };

    ghost inverse = { λ numbers. record { numbers = numbers } };
}

// Which entry a procedure and a symbol have.
// The bounds of both are asked of each function that looks an entry up: as types of their own, numbers below these bounds would be made
// at each look-up, since what a node, a rule or the document holds is a plain number.
fn entry_of(procedure: Procedure, symbol: Symbol) -> usize
    requires { (procedure.0 < most_procedures) × (symbol.0 < rule_symbols) }
    ensures { (result ≡ entry_of procedure.0 symbol.0) × (result < entries) }
{
    RULE_SYMBOLS * procedure.number() + symbol.number()
}

// Whether a rule has the stay rules' symbol.
fn has_stay_rule(stay: Symbol, rules: &[u16]) -> bool
    ensures { result ≡ has_stay stay.0 rules.now }
{
    first_where(rules.len() / 3, |k| rule_at(rules, k).symbol == stay).is_some()
}

// Sets the right sides of the first rules. The rules go from the last to the first, so that an earlier one takes the place of a
// later one. 256, which is no node, stands where there is no rule: a table of plain numbers has no other word for none.
fn set_sides(sides: &mut [u16], rules: &[u16])
    requires { (length sides.old ≡ entries) × SmallRules rules.now }
    ensures { Sides rules.now sides.new }
{
    sides.fill(MOST_NODES as u16);
    for k in (0..rules.len() / 3).rev() {
        let rule = rule_at(rules, k);
        sides[entry_of(rule.procedure, rule.symbol)] = rule.node;
    }
}

// Copies numbers into a table, from a place on, one by one: `copy_from_slice` would have the library for C need `memmove`.
fn copy_in(table: &mut [u16; LENGTH], at: usize, from: &[u16])
    requires { at + length from.now ≤ plan_length }
    ensures { table.new ≡ overlaid table.old at from.now }
{
    for i in 0..from.len() {
        table[at + i] = from[i];
    }
}

impl Plan {
    // A plan with nothing in it.
    pub fn blank() -> Plan
        ensures { result ≡ replicate plan_length 0 }
    {
        Plan {
            numbers: [0; LENGTH],
        }
    }

    // Fills the plan of a contract's transformation and a document, of which it is known where each tree ends.
    pub fn fill(&mut self, contract: &ContractTables, numbers: &[u16], ends: &[u16])
        requires small { SmallRules contract.now.rules.now × (contract.now.symbols < 65536) }
        requires counts_len_bound { (length contract.now.counts.now ≤ most_procedures) × (length contract.now.nodes.now ≤ 5 * most_nodes) × (length numbers.now ≤ most_numbers) × (length numbers.now ≤ length ends.now) }
        ensures { Laid (handed contract.now).transformation numbers.now ends.now self.new }
    {
        let stay = Symbol(contract.symbols as u16);
        copy_in(&mut self.numbers, 0, contract.counts);
        set_sides(&mut self.numbers[SIDES..NODES], contract.rules);
        copy_in(&mut self.numbers, NODES, contract.nodes);
        copy_in(&mut self.numbers, NUMBERS, numbers);
        copy_in(&mut self.numbers, ENDS, &ends[..numbers.len()]);
        self.numbers[STAY_SYMBOL] = stay.0;
        self.numbers[STAYS] = u16::from(has_stay_rule(stay, contract.rules));
    }

    // How many parameters a procedure has.
    pub fn count_of(&self, procedure: Procedure) -> u16
        requires { procedure.0 < most_procedures }
        ensures { result ≡ get_or self.now procedure.0 0 }
    {
        self.numbers[procedure.number()]
    }

    // The right side of the first rule listed for a procedure and a symbol; 256 where there is none.
    fn side_of(&self, procedure: Procedure, symbol: Symbol) -> usize
        requires { (procedure.0 < most_procedures) × (symbol.0 < rule_symbols) }
        ensures { result ≡ plan_side self.now procedure.0 symbol.0 }
    {
        usize::from(self.numbers[SIDES + entry_of(procedure, symbol)])
    }

    // The symbol that stay rules have.
    fn stay_symbol(&self) -> Symbol
        ensures { result.0 ≡ plan_stay self.now }
    {
        Symbol(self.numbers[STAY_SYMBOL])
    }

    // The right side of the first rule for a procedure and a symbol, or of the procedure's first stay rule where there is none, as it
    // stands in the plan: 256 where there is neither.
    pub fn sought_number(&self, procedure: Procedure, symbol: Symbol) -> usize
        requires { (procedure.0 < most_procedures) × (symbol.0 < rule_symbols) × (plan_stay self.now < rule_symbols) }
        ensures { result ≡ plan_sought_number self.now procedure.0 symbol.0 }
    {
        let stay = self.stay_symbol();
        let side = self.side_of(procedure, symbol);
        if side < MOST_NODES {
            return side;
        }
        self.side_of(procedure, stay)
    }

    // The right side that a run takes for a procedure and a symbol, if there is one.
    pub fn sought_side(&self, procedure: Procedure, symbol: Symbol) -> Option<usize>
        requires { (procedure.0 < most_procedures) × (symbol.0 < rule_symbols) × (plan_stay self.now < rule_symbols) }
        ensures { result ≡ plan_sought self.now procedure.0 symbol.0 }
    {
        let side = self.sought_number(procedure, symbol);
        if side < MOST_NODES { Some(side) } else { None }
    }

    // Node k.
    pub fn node(&self, k: usize) -> Node
        requires { k < most_nodes }
        ensures { node_of result ≡ plan_node self.now k }
    {
        let at = NODES + 5 * k;
        Node {
            tag: self.numbers[at],
            name: self.numbers[at + 1],
            child: self.numbers[at + 2],
            first: self.numbers[at + 3],
            second: self.numbers[at + 4],
        }
    }

    // The symbol at a place of the document.
    pub fn symbol_at(&self, place: usize) -> Symbol
        requires { place < most_numbers }
        ensures { result.0 ≡ get_or self.now (numbers_place + place) 0 }
    {
        Symbol(self.numbers[NUMBERS + place])
    }

    // Where the tree of a place of the document ends.
    pub fn end_of(&self, place: usize) -> usize
        requires { place < most_numbers }
        ensures { result ≡ get_or self.now (ends_place + place) 0 }
    {
        usize::from(self.numbers[ENDS + place])
    }

    // The most calls that a run makes: fewer where a rule is a stay rule.
    pub fn most_calls(&self) -> u32
        ensures { result ≡ plan_most self.now }
    {
        if self.numbers[STAYS] == 1 {
            4096
        } else {
            65536
        }
    }
}
