// Preparing an admitted contract: its tables and what is made of them once, in one table, with the masks of its symbols beside it.
#![tactic(auto)]

ghost use Rattle.std.specs.Prelude.{◌≡◌, ◌+◌, ◌<◌, ◌≤◌, length};
ghost use Rattle.model.proofs.Laws.Established.{Established};
ghost use Rattle.tables.specs.Handed.{handed};
ghost use Rattle.kind_words.specs.Sizes.{rule_symbols, next_rules};
ghost use Rattle.kind_words.specs.Kind.{RulesChained};
ghost use Rattle.preparing.specs.Packing.{rounds_by, Appended, Packed, LaidOut, Prepares, packed_length, prepared_length, Short};

use breaking::verdicts_of;
use chains::has_rules;
use lanes::entry_of;
use layouts::{layout_of, offsets_of};
use masks::{Masked, with_masks};
use prepared::{Parts, Prepared};
use reaching::{fill_lists, lists_length};
use tables::{ContractTables, Symbol};

// Where the tables of a contract end that stand one behind another.
#[derive(Clone, Copy, Debug, PartialEq, Eq)]
pub struct Ends {
    pub counts: usize,
    pub rows: usize,
    pub inputs: usize,
    pub table: usize,
    pub outputs: usize,
    pub nodes: usize,
    pub rules: usize,
}

// Copies numbers into a table behind the first `at` of it, and returns where they end. One by one, as `plans` does: `copy_from_slice` would
// have the library for C need `memmove`.
fn append(table: &mut [u16], at: usize, from: &[u16]) -> usize
    requires { at + length from.now ≤ length table.old }
    ensures { Appended table.old at from.now table.new result }
{
    for i in 0..from.len() {
        table[at + i] = from[i];
    }
    at + from.len()
}

// Copies the tables of a contract to the front of a table, one behind another, and returns where each ends.
fn pack(contract: &ContractTables, table: &mut [u16]) -> Ends
    requires { packed_length (handed contract.now) ≤ length table.old }
    ensures { Packed (handed contract.now) table.old result table.new }
{
    let counts = append(table, 0, contract.counts);
    let rows = append(table, counts, contract.input_rows);
    let inputs = append(table, rows, contract.input_marks);
    let output_table = append(table, inputs, contract.output_table);
    let outputs = append(table, output_table, contract.output_marks);
    let nodes = append(table, outputs, contract.nodes);
    let rules = append(table, nodes, contract.rules);
    Ends {
        counts,
        rows,
        inputs,
        table: output_table,
        outputs,
        nodes,
        rules,
    }
}

// How many numbers a prepared contract takes at most.
pub fn table_length(contract: &ContractTables) -> usize
    requires { Short (handed contract.now) }
    ensures { result ≡ prepared_length (handed contract.now) }
{
    contract.counts.len()
        + contract.input_rows.len()
        + contract.input_marks.len()
        + contract.output_table.len()
        + contract.output_marks.len()
        + contract.nodes.len()
        + contract.rules.len()
        + lists_length(contract.input_rows, contract.nodes, contract.rules)
}

// Room for every prepared contract; in a function of its own, so that proofs see its length alone.
pub fn most_table() -> [u16; 9604] {
    [0u16; 9604]
}

// The most facts: so many rounds of the stay rules close a kind.
const FACTS: usize = 256;

// How many rounds of the stay rules close a kind; they have this symbol.
fn stay_rounds(rules: &[u16], lists: &[u16], stay: Symbol) -> usize
    requires { RulesChained rules.now lists.now × (stay.0 < rule_symbols) × (next_rules ≤ length lists.now) }
    ensures { result ≡ rounds_by rules.now stay.0 }
{
    if has_rules(rules, lists, stay) {
        return FACTS;
    }
    0
}

// Lays out an admitted contract in a table: its tables, and behind them the lists by symbol.
pub fn lay_out(contract: &ContractTables, table: &mut [u16]) -> Parts
    requires { Established (handed contract.now) × (prepared_length (handed contract.now) ≤ length table.old) × (length table.old < 65536) }
    ensures { LaidOut (handed contract.now) result table.new }
{
    let ends = pack(contract, table);
    let lists = ends.rules;
    fill_lists(
        contract.counts,
        contract.input_rows,
        contract.nodes,
        contract.rules,
        &mut table[lists..],
    );
    Parts {
        symbols: contract.symbols,
        states: contract.input_states,
        rounds: stay_rounds(
            contract.rules,
            &table[lists..],
            Symbol(entry_of(contract.symbols)),
        ),
        layout: layout_of(contract.output_states, contract.counts),
        offsets: offsets_of(contract.output_states, contract.counts),
        verdicts: verdicts_of(contract.input_marks, contract.output_marks),
        counts: ends.counts,
        rows: ends.rows,
        inputs: ends.inputs,
        table: ends.table,
        outputs: ends.outputs,
        nodes: ends.nodes,
        rules: ends.rules,
    }
}

// Prepares the table of an admitted contract, with room for it, and makes no masks.
#[tactic(auto, using(prepared::specs::Parts::is_ready))]
pub fn prepare_table<'a>(contract: &ContractTables, table: &'a mut [u16]) -> Prepared<'a>
    requires { Established (handed contract.now) × (prepared_length (handed contract.now) ≤ length table.old) × (length table.old < 65536) }
    ensures { LaidOut (handed contract.now) result.parts result.table.now }
{
    let parts = lay_out(contract, table);
    Prepared { parts, table }
}

// Prepares an admitted contract, with room for its table: the table, and the masks of what each symbol sees.
#[tactic(auto, using(crate::specs::Packing::with_masks))]
pub fn prepare<'a>(contract: &ContractTables, table: &'a mut [u16]) -> Masked<'a>
    requires { Established (handed contract.now) × (prepared_length (handed contract.now) ≤ length table.old) × (length table.old < 65536) }
    ensures { Prepares (handed contract.now) result.prepared.parts result.prepared.table.now result.left_masks result.right_masks }
{
    with_masks(prepare_table(contract, table))
}
