//! Lists of nodes.

ghost use Rattle.std.specs.Prelude.{◌≡◌, ◌<◌, [], ◌∷◌, ◌++◌, length, slice_get, option_map, OnOk, OnErr, Some};
ghost use Rattle.simplicity.specs.Carried.{AreCarried, IsCarried, AreBytes};
ghost use Rattle.simplicity.specs.Nodes.{CanFollow, IsPlaced};
ghost use Rattle.term_core.specs.Nodes.{node_of, nodes_of};

use crate::list_node::ListNode;
use std::alloc::{AllocError, Global};
use std::marker::Model;

/// A list of nodes in the order of their bits: children before their parents, hidden nodes as children of a case alone.
#[derive(Drop)]
pub struct NodeList {
    nodes: Vec<ListNode>,
}

impl Model for NodeList {
    ghost use Rattle.std.specs.Prelude.{List};
    ghost use Rattle.simplicity.specs.Carried.{AreCarried};
    ghost use Rattle.simplicity.specs.Nodes.{Node, IsPlaced};
    ghost use Rattle.term_core.specs.Nodes.{nodes_of};

    ghost Value = { List Node };

    ghost view = { λ l. nodes_of l.nodes.items };

    ghost invariant = { λ l. IsPlaced (nodes_of l.nodes.items) × AreCarried (nodes_of l.nodes.items) };
}

impl NodeList {
    /// The empty list. It takes no memory.
    pub fn new(alloc: Global) -> NodeList
        ensures { result ≡ [] }
    {
        NodeList {
            nodes: Vec::new(alloc),
        }
    }

    /// Appends a node. After an error the list is as before.
    pub fn push(&mut self, node: ListNode) -> Result<(), AllocError>
        requires { CanFollow self.old (node_of node) }
        ensures ok { OnOk result (self.new ≡ self.old ++ node_of node ∷ []) }
        ensures err { OnErr result (self.new ≡ self.old) }
    {
        carried_fits(&node);
        self.nodes.push(node)?;
        Ok(())
    }

    /// The number of nodes.
    pub fn len(&self) -> usize
        ensures { result ≡ length self.now }
    {
        self.nodes.len()
    }

    /// The node at a place.
    pub fn get(&self, place: usize) -> &ListNode
        requires { place < length self.now }
        ensures { slice_get self.now place ≡ Some (node_of result.now) }
    {
        &self.nodes[place]
    }

    /// The nodes in their order.
    pub fn as_slice(&self) -> &[ListNode]
        ensures nodes { nodes_of result.now ≡ self.now }
        ensures placed { IsPlaced self.now }
        ensures carried { AreCarried self.now }
    {
        self.nodes.as_slice()
    }
}

/// What a node carries fits its field, by the types of the code.
fn carried_fits(node: &ListNode)
    ensures { IsCarried (node_of node.now) }
{
    match node {
        ListNode::Hidden(bytes) => hidden_fits(bytes),
        ListNode::Fail(bytes) => fail_fits(bytes),
        ListNode::Word(word) => {
            let _width = word.width();
        }
        _ => {}
    }
}

fn hidden_fits(bytes: &[u8; 32])
    ensures { AreBytes 32 bytes.now }
{
    bytes_fit(bytes.as_slice());
}

fn fail_fits(bytes: &[u8; 64])
    ensures { AreBytes 64 bytes.now }
{
    bytes_fit(bytes.as_slice());
}

fn bytes_fit(bytes: &[u8])
    ensures { AreBytes (length bytes.now) bytes.now }
{
    let _count = bytes.len();
}
