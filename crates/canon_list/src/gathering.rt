//! The arrows and the names of the nodes that a list's root reaches.

ghost use Rattle.std.specs.Prelude.{◌≡◌, ◌<◌, ◌≤◌, length, map, true, false, IfOk};
ghost use Rattle.std.specs.List.{range_with_len, slice_index_or};
ghost use Rattle.simplicity.specs.Canon.{names_at};
ghost use Rattle.simplicity.specs.Nodes.{AreUnder, witness_number};
ghost use Rattle.simplicity.specs.Nodes as spec;
ghost use Rattle.simplicity.specs.Pruning.{numbers_at};
ghost use Rattle.term_core.specs.Nodes.{node_of};
ghost use Rattle.canon_list.specs.Canons.{arrows_at};

use infer_cells::Typing;
use std::alloc::{AllocError, Global};
use term_core::{ListNode, NodeList};

/// The arrows of these nodes, in their order.
pub(crate) fn gather_arrows(
    alloc: Global,
    arrows: &Typing,
    order: &[usize],
) -> Result<Typing, AllocError>
    requires { AreUnder (length arrows.now) order.now }
    ensures { IfOk result (λ typing. typing ≡ arrows_at arrows.now order.now) }
{
    let mut gathered = Typing::new(alloc);
    for node in order {
        gathered.push(*arrows.get(*node))?;
    }
    Ok(gathered)
}

/// The names of the witness nodes among these nodes, in their order.
pub(crate) fn gather_names(
    alloc: Global,
    nodes: &NodeList,
    names: &[usize],
    order: &[usize],
) -> Result<Vec<usize>, AllocError>
    requires named { witness_number nodes.now (length nodes.now) ≤ length names.now }
    requires within { AreUnder (length nodes.now) order.now }
    ensures { IfOk result (λ r. r.items ≡ names_at names.now (numbers_at nodes.now order.now)) }
{
    let numbers = witness_numbers(alloc, nodes)?;
    let mut gathered = Vec::new(alloc);
    for node in order {
        if is_witness(nodes.get(*node)) {
            gathered.push(name(names, numbers[*node]))?;
        }
    }
    Ok(gathered)
}

/// The name of a number.
fn name(names: &[usize], number: usize) -> usize
    requires { number < length names.now }
    ensures { result ≡ slice_index_or names.now number 0 }
{
    names[number]
}

/// For each node how many witness nodes stand before it.
fn witness_numbers(alloc: Global, nodes: &NodeList) -> Result<Vec<usize>, AllocError>
    ensures { IfOk result (λ r. r.items ≡ map (witness_number nodes.now) (range_with_len 0 (length nodes.now))) }
{
    let mut numbers = Vec::new(alloc);
    let mut count = 0;
    for index in 0..nodes.len() {
        numbers.push(count)?;
        if is_witness(nodes.get(index)) {
            count += 1;
        }
    }
    Ok(numbers)
}

/// Whether a node is a witness.
fn is_witness(node: &ListNode) -> bool
    ensures yes { result ≡ true → node_of node.now ≡ spec.Witness }
    ensures no { result ≡ false → node_of node.now ≡ spec.Witness → ⊥ }
{
    matches!(node, ListNode::Witness)
}
