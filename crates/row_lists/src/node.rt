//! The nodes that a row becomes.

ghost use Rattle.std.specs.Prelude.{◌≡◌, ◌++◌, length, IfOk, OnOk};
ghost use Rattle.simplicity.specs.Nodes.{AreUnder};
ghost use Rattle.term_core.specs.Nodes.{node_of};
ghost use Rattle.term_core.specs.Terms.{child_ids};
ghost use Rattle.row_lists.specs.Rows.{place_at, listed, hidden_nodes, hidden_arrows, own_names};

use infer_cells::Typing;
use std::alloc::AllocError;
use term_core::{ListNode, Node, NodeList};

/// The node of a row, with the places of its children and, for an assertion, that of its hidden side.
pub(crate) fn list_node(node: &Node, places: &[usize], hidden: usize) -> ListNode
    requires { AreUnder (length places.now) (child_ids node.now) }
    ensures { node_of result ≡ listed (place_at places.now) hidden node.now }
{
    match node {
        Node::Iden => ListNode::Iden,
        Node::Unit => ListNode::Unit,
        Node::Injl(child) => ListNode::Injl(places[*child]),
        Node::Injr(child) => ListNode::Injr(places[*child]),
        Node::Take(child) => ListNode::Take(places[*child]),
        Node::Drop(child) => ListNode::Drop(places[*child]),
        Node::Comp(left, right) => ListNode::Comp(places[*left], places[*right]),
        Node::Case(left, right) => ListNode::Case(places[*left], places[*right]),
        Node::Pair(left, right) => ListNode::Pair(places[*left], places[*right]),
        Node::AssertL(left, _) => ListNode::Case(places[*left], hidden),
        Node::AssertR(_, right) => ListNode::Case(hidden, places[*right]),
        Node::Fail => ListNode::Fail([0; 64]),
        Node::Witness(_) => ListNode::Witness,
        Node::Word(word) => ListNode::Word(*word),
    }
}

/// Appends the hidden side of an assertion. The place at which it stands, or where a node that has none will stand.
pub(crate) fn push_hidden(
    nodes: &mut NodeList,
    arrows: &mut Typing,
    node: &Node,
) -> Result<usize, AllocError>
    ensures place { IfOk result (λ place. place ≡ length nodes.old) }
    ensures nodes { OnOk result (nodes.new ≡ nodes.old ++ hidden_nodes node.now) }
    ensures arrows { OnOk result (arrows.new ≡ arrows.old ++ hidden_arrows node.now) }
{
    let place = nodes.len();
    match node {
        Node::AssertL(_, bytes) => {
            nodes.push(ListNode::Hidden(*bytes))?;
            arrows.push(None)?;
        }
        Node::AssertR(bytes, _) => {
            nodes.push(ListNode::Hidden(*bytes))?;
            arrows.push(None)?;
        }
        _ => {}
    }
    Ok(place)
}

/// Appends the number of a witness.
pub(crate) fn push_name(names: &mut Vec<usize>, node: &Node) -> Result<(), AllocError>
    ensures { OnOk result (names.new.items ≡ names.old.items ++ own_names node.now) }
{
    if let Node::Witness(number) = node {
        names.push(*number)?;
    }
    Ok(())
}
