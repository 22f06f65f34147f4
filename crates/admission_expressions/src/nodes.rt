// Refusals 30 to 34: what is wrong with an expression node.
ghost use Rattle.std.specs.Prelude.{◌≡◌};
ghost use Rattle.model.specs.Admission.{name_wrong, child_wrong, reference_wrong, unused_filled, node_fault, lowest_node_fault, admitted_unless};
ghost use Rattle.answers.specs.Numbers.{admission_answer};
ghost use Rattle.tables.specs.Tuples.{node_of};

use answers::{ContractFault, NodeFault};
use tables::{Node, Procedure, Symbol, node_at, procedure_wrong, reference_count, symbol_wrong};

// A node's name is no parameter, no symbol or no procedure.
fn name_wrong(symbols: usize, counts: &[u16], node: Node) -> bool
    ensures { result ≡ name_wrong symbols counts.now (node_of node) }
{
    if node.tag == 0 {
        return (node.name < 1) | (2 < node.name);
    }
    if node.tag == 1 {
        return symbol_wrong(symbols, Symbol(node.name));
    }
    procedure_wrong(counts.len(), Procedure(node.name))
}

// A call's child is not 0 (the node itself), 1 (left) or 2 (right).
fn child_wrong(node: Node) -> bool
    ensures { result ≡ child_wrong (node_of node) }
{
    (node.tag == 2) & (2 < node.child)
}

// Node k refers to a node that is not smaller.
fn reference_wrong(counts: &[u16], k: usize, node: Node) -> bool
    ensures { result ≡ reference_wrong counts.now k (node_of node) }
{
    let used = reference_count(counts, node);
    ((1 <= used) & (k <= usize::from(node.first))) | ((2 <= used) & (k <= usize::from(node.second)))
}

// A field that is not used is not 0.
fn unused_filled(counts: &[u16], node: Node) -> bool
    ensures { result ≡ unused_filled counts.now (node_of node) }
{
    let used = reference_count(counts, node);
    (!(node.tag == 2) & !(node.child == 0))
        | ((used < 1) & !(node.first == 0))
        | ((used < 2) & !(node.second == 0))
}

// Refuses node k for the fault with the lowest number, if it has one.
fn admit_node(symbols: usize, counts: &[u16], k: usize, node: Node) -> Result<(), ContractFault>
    ensures { admission_answer result ≡ admitted_unless (node_fault symbols counts.now k (node_of node)) }
{
    if 2 < node.tag {
        return Err(ContractFault::Node(NodeFault::Tag, k));
    }
    if name_wrong(symbols, counts, node) {
        return Err(ContractFault::Node(NodeFault::Name, k));
    }
    if child_wrong(node) {
        return Err(ContractFault::Node(NodeFault::Child, k));
    }
    if reference_wrong(counts, k, node) {
        return Err(ContractFault::Node(NodeFault::Reference, k));
    }
    if unused_filled(counts, node) {
        return Err(ContractFault::Node(NodeFault::Unused, k));
    }
    Ok(())
}

// Refuses the lowest bad node for its fault.
pub fn admit_nodes(symbols: usize, counts: &[u16], nodes: &[u16]) -> Result<(), ContractFault>
    ensures { admission_answer result ≡ admitted_unless (lowest_node_fault symbols counts.now nodes.now) }
{
    for k in 0..nodes.len() / 5 {
        admit_node(symbols, counts, k, node_at(nodes, k))?;
    }
    Ok(())
}
