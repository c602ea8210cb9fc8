//! The classes of a list's nodes.

ghost use Rattle.std.specs.Prelude.{◌≡◌, length, Option, IfOk};
ghost use Rattle.simplicity.specs.Nodes.{children, AreUnder, IsPlaced};
ghost use Rattle.term_core.specs.Nodes.{node_of};
ghost use Rattle.infer_cells.specs.declared.typing.NodeArrow.{NodeArrow as ArrowIds};
ghost use Rattle.share_order.specs.Keys.{Classes, place_at, key_for, key_of, keys_of, nodes_in, own_key, IsWide, KeysDiffer};

use crate::rename::renamed;
use indexmap::IndexSet;
use infer_cells::{NodeArrow, Typing};
use std::alloc::{AllocError, Global};
use term_core::{ListNode, NodeList, word_level};

/// What nodes of one class have in common: kind, classes of children, arrow. A witness has its own index.
#[derive(Clone, Copy, PartialEq, Eq, Hash)]
pub(crate) struct NodeKey {
    pub node: ListNode,
    pub arrow: Option<NodeArrow>,
    pub number: usize,
}

/// The classes, in the order of their first nodes, and the class of each node.
#[derive(Drop)]
pub(crate) struct NodeClasses {
    pub keys: IndexSet<NodeKey>,
    pub places: Vec<usize>,
}

/// Puts each node into the class of its key, in one pass.
pub(crate) fn classes(
    alloc: Global,
    nodes: &NodeList,
    typing: &Typing,
) -> Result<NodeClasses, AllocError>
    requires { length typing.now ≡ length nodes.now }
    ensures classes { IfOk result (λ r.
        Classes (Option ArrowIds) nodes.now typing.now (keys_of r.keys.keys) r.places.items) }
    ensures all { IfOk result (λ r. length r.places.items ≡ length nodes.now) }
    ensures differ { IfOk result (λ r. KeysDiffer (keys_of r.keys.keys)) }
    ensures placed { IfOk result (λ r. IsPlaced (nodes_in (keys_of r.keys.keys))) }
{
    let _placed = nodes.as_slice();
    let mut keys = IndexSet::new(alloc);
    let mut places = Vec::new(alloc);
    for index in 0..nodes.len() {
        let key = node_key(
            nodes.get(index),
            *typing.get(index),
            index,
            places.as_slice(),
        );
        let (class, _) = keys.insert_full(key)?;
        places.push(class)?;
    }
    Ok(NodeClasses { keys, places })
}

/// The key of a node, over the classes of those before it.
fn node_key(node: &ListNode, arrow: Option<NodeArrow>, index: usize, places: &[usize]) -> NodeKey
    requires { AreUnder (length places.now) (children (node_of node.now)) }
    ensures key { key_of result ≡ key_for (place_at places.now) index (node_of node.now) arrow }
    ensures wide { IsWide result.node }
{
    NodeKey::new(renamed(node, places), arrow, index)
}

impl NodeKey {
    /// The key of a node as it stands.
    pub(crate) fn new(node: ListNode, arrow: Option<NodeArrow>, index: usize) -> NodeKey
        ensures key { key_of result ≡ own_key index (node_of node) arrow }
        ensures wide { IsWide result.node }
    {
        let number = match node {
            ListNode::Witness => index,
            ListNode::Word(word) => {
                let _level = word_level(&word);
                0
            }
            _ => 0,
        };
        NodeKey {
            node,
            arrow,
            number,
        }
    }
}
