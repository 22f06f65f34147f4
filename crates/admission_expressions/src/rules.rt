// Refusal 7: rules.
ghost use Rattle.std.specs.Prelude.{◌≡◌, ◌≤◌, length};
ghost use Rattle.foundation.specs.Search.{first_below};
ghost use Rattle.model.specs.Tables.{node_count, rule_at, rule_count};
ghost use Rattle.model.specs.Admission.{rule_wrong};
ghost use Rattle.model.proofs.Laws.Established.{GoodNodes};
ghost use Rattle.tables.specs.Tuples.{rule_of};
ghost use Rattle.admission_expressions.specs.Uses.{calls_wrong_by, UsesKnown};

use crate::uses::{NO_USES, Uses, fill_uses, uses_at};
use searching::first_where;
use tables::{Numbered, Rule, Symbol, count_of, procedure_wrong, rule_at};

// A rule's node holds a call that a rule of its symbol must not: any for symbol 0, one that goes to a child for a stay rule, one that
// stays at the node for other symbols.
fn calls_wrong(symbols: usize, symbol: Symbol, uses: Uses) -> bool
    ensures { result ≡ calls_wrong_by symbols symbol.0 uses }
{
    if symbol.number() == 0 {
        return uses.stays | uses.moves;
    }
    if symbol.number() == symbols {
        return uses.moves;
    }
    uses.stays
}

// What a rule names does not exist, or its node uses what it must not.
fn rule_wrong(symbols: usize, counts: &[u16], nodes: &[u16], table: &[Uses], rule: Rule) -> bool
    requires { UsesKnown counts.now nodes.now (node_count nodes.now) table.now }
    ensures { result ≡ rule_wrong symbols counts.now nodes.now (rule_of rule) }
{
    let uses = uses_at(table, rule.node);
    procedure_wrong(counts.len(), rule.procedure)
        | (symbols < rule.symbol.number())
        | (nodes.len() / 5 <= usize::from(rule.node))
        | (count_of(counts, rule.procedure) < uses.greatest)
        | calls_wrong(symbols, rule.symbol, uses)
}

// The first bad rule, if there is one, by the table of what the nodes use.
fn first_by_table(
    symbols: usize,
    counts: &[u16],
    nodes: &[u16],
    table: &[Uses],
    rules: &[u16],
) -> Option<usize>
    requires { UsesKnown counts.now nodes.now (node_count nodes.now) table.now }
    ensures { result ≡ first_below (λ k. rule_wrong symbols counts.now nodes.now (rule_at rules.now k)) (rule_count rules.now) }
{
    first_where(rules.len() / 3, |k| {
        rule_wrong(symbols, counts, nodes, table, rule_at(rules, k))
    })
}

// The first bad rule, if there is one, with room for the table of N nodes.
fn first_with_room<const N: usize>(
    symbols: usize,
    counts: &[u16],
    nodes: &[u16],
    rules: &[u16],
) -> Option<usize>
    requires { GoodNodes counts.now nodes.now × (node_count nodes.now ≤ N) × (N ≤ 256) }
    ensures { result ≡ first_below (λ k. rule_wrong symbols counts.now nodes.now (rule_at rules.now k)) (rule_count rules.now) }
{
    let mut table = [NO_USES; N];
    fill_uses(counts, nodes, &mut table);
    first_by_table(symbols, counts, nodes, &table, rules)
}

// The first bad rule, if there is one. The table has room for sixteen nodes or for as many as there may be.
pub fn first_bad_rule(symbols: usize, counts: &[u16], nodes: &[u16], rules: &[u16]) -> Option<usize>
    requires { GoodNodes counts.now nodes.now }
    ensures { result ≡ first_below (λ k. rule_wrong symbols counts.now nodes.now (rule_at rules.now k)) (rule_count rules.now) }
{
    if nodes.len() <= 80 {
        return first_with_room::<16>(symbols, counts, nodes, rules);
    }
    first_with_room::<256>(symbols, counts, nodes, rules)
}
