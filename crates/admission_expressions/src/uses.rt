// What a node uses, directly or below: for every node at once, in one ascending pass, so that a shared node is never
// followed again.
ghost use Rattle.std.specs.Prelude.{◌≡◌, ◌≤◌, length, get_or};
ghost use Rattle.model.specs.Tables.{node_count};
ghost use Rattle.model.proofs.Laws.Established.{GoodNodes};
ghost use Rattle.tables.specs.Tuples.{node_of};
ghost use Rattle.admission_expressions.specs.Uses.{no_uses, joined, own_uses, uses_below, uses_over, UsesKnown};

use tables::{Node, node_at, reference_count};

// What a node uses, directly or below.
#[derive(Clone, Copy, Debug, PartialEq, Eq)]
pub struct Uses {
    // The greatest parameter, or 0.
    pub greatest: u16,
    // It holds a call that stays at the node.
    pub stays: bool,
    // It holds a call that goes to a child.
    pub moves: bool,
}

// What a node that uses nothing uses.
pub const NO_USES: Uses = Uses {
    greatest: 0,
    stays: false,
    moves: false,
};

// What two nodes use together.
fn joined(a: Uses, b: Uses) -> Uses
    ensures { result ≡ joined a b }
{
    Uses {
        greatest: a.greatest.max(b.greatest),
        stays: a.stays | b.stays,
        moves: a.moves | b.moves,
    }
}

// What a node uses itself. Child 0 of a call is the node.
fn own_uses(node: Node) -> Uses
    ensures { result ≡ own_uses (node_of node) }
{
    let call = node.tag == 2;
    Uses {
        greatest: if node.tag == 0 { node.name } else { 0 },
        stays: call & (node.child == 0),
        moves: call & (node.child != 0),
    }
}

// What the node of a number uses, by a table.
pub fn uses_at(table: &[Uses], node: u16) -> Uses
    ensures { result ≡ get_or table.now node no_uses }
{
    table.get(usize::from(node)).copied().unwrap_or(NO_USES)
}

// What the nodes to which a node refers use.
fn uses_below(counts: &[u16], smaller: &[Uses], node: Node) -> Uses
    ensures { result ≡ uses_below counts.now smaller.now (node_of node) }
{
    let used = reference_count(counts, node);
    if used == 0 {
        return NO_USES;
    }
    let first = uses_at(smaller, node.first);
    if used == 1 {
        return first;
    }
    joined(first, uses_at(smaller, node.second))
}

// What a node uses, from what the nodes below it use.
fn uses_of(counts: &[u16], smaller: &[Uses], node: Node) -> Uses
    ensures { result ≡ uses_over counts.now smaller.now (node_of node) }
{
    joined(own_uses(node), uses_below(counts, smaller, node))
}

// Fills a table, from its start, with what each node uses.
pub fn fill_uses(counts: &[u16], nodes: &[u16], table: &mut [Uses])
    requires { GoodNodes counts.now nodes.now × (node_count nodes.now ≤ length table.old) }
    ensures { UsesKnown counts.now nodes.now (node_count nodes.now) table.new }
{
    for k in 0..nodes.len() / 5 {
        table[k] = uses_of(counts, table, node_at(nodes, k));
    }
}
