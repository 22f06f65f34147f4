// A prepared contract: its tables one behind another in one table of numbers, with what is made of them once, and beside the
// table the numbers that are no list: sizes, the layout of words, where each part ends, the words that, with the mark of one root, tell a
// breaking kind.
#![tactic(auto)]

ghost use Rattle.prepared.specs.Parts.{IsReady, IsReady-prop};

use breaking::Verdicts;
use chains::{list_of, rows_from};
use lanes::{Layout, PROCEDURES};
use tables::Symbol;

// `rounds` is how many rounds of the stay rules close a kind: none where there are no stay rules.
//
// From place 0 the table has the parameter counts, the input rows, the input marks, the output table, the output marks, the
// nodes and the rules, each to the end that is named after it; behind the rules the lists by symbol.
#[derive(Clone, Copy)]
pub struct Parts {
    pub rounds: usize,
    pub symbols: usize,
    pub states: usize,
    pub layout: Layout,
    pub offsets: [u16; PROCEDURES],
    pub verdicts: Verdicts,
    pub counts: usize,
    pub rows: usize,
    pub inputs: usize,
    pub table: usize,
    pub outputs: usize,
    pub nodes: usize,
    pub rules: usize,
}

// A table and where its parts stand. Every one is prepared for the contract that is in it.
#[derive(Clone, Copy)]
pub struct Prepared<'a> {
    pub parts: Parts,
    pub table: &'a [u16],
    pub ghost ready: { IsReady parts table.now } by { IsReady-prop parts table.now },
}

impl<'a> Prepared<'a> {
    ghost use Rattle.std.specs.Prelude.{◌≡◌, ◌<◌};
    ghost use Rattle.kind_words.specs.Sizes.{rule_symbols, next_rows};
    ghost use Rattle.kind_words.specs.Kind.{list_of};
    ghost use Rattle.prepared.specs.Contract.{contract_of, lists_of};

    // The parameter counts.
    pub fn counts(&self) -> &'a [u16]
        ensures { result.now ≡ (contract_of self.now).transformation.counts }
    {
        let table = self.table;
        &table[..self.parts.counts]
    }

    // The input rows.
    pub fn rows(&self) -> &'a [u16]
        ensures { result.now ≡ (contract_of self.now).input.rows }
    {
        let table = self.table;
        &table[self.parts.counts..self.parts.rows]
    }

    // The output table.
    pub fn output_table(&self) -> &'a [u16]
        ensures { result.now ≡ (contract_of self.now).output.table }
    {
        let table = self.table;
        &table[self.parts.inputs..self.parts.table]
    }

    // The nodes.
    pub fn nodes(&self) -> &'a [u16]
        ensures { result.now ≡ (contract_of self.now).transformation.nodes }
    {
        let table = self.table;
        &table[self.parts.outputs..self.parts.nodes]
    }

    // The rules.
    pub fn rules(&self) -> &'a [u16]
        ensures { result.now ≡ (contract_of self.now).transformation.rules }
    {
        let table = self.table;
        &table[self.parts.nodes..self.parts.rules]
    }

    // The lists by symbol.
    pub fn lists(&self) -> &'a [u16]
        ensures { result.now ≡ lists_of self.now }
    {
        let table = self.table;
        &table[self.parts.rules..]
    }

    // The list of the symbol: the nodes that its rules reach.
    pub fn list(&self, symbol: Symbol) -> &'a [u16]
        requires { symbol.0 < rule_symbols }
        ensures { result.now ≡ list_of (lists_of self.now) symbol.0 }
    {
        list_of(self.lists(), symbol)
    }

    // From where on the lists have the row after each input row.
    pub fn nexts(&self) -> usize
        ensures { result ≡ next_rows (contract_of self.now).transformation.rules }
    {
        rows_from(self.rules())
    }
}
