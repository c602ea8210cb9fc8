//! The places that hidden nodes may have.

ghost use Rattle.std.specs.Prelude.{◌≡◌, ◌<◌, length, slice_get};
ghost use Rattle.simplicity.specs.Nodes.{AreUnder, children};
ghost use Rattle.spelling.specs.Reading as reading;
ghost use Rattle.bit_codec.specs.Answers.{IsPlace};
ghost use Rattle.term_core.specs.Nodes.{node_of};

use crate::refusal::CodecRefusal;
use term_core::{ListNode, NodeList};

/// Tests that a node may follow these: only a case has a hidden child, and at most one.
pub(crate) fn test_place(nodes: &NodeList, node: &ListNode) -> Result<(), CodecRefusal>
    requires { AreUnder (length nodes.now) (children (node_of node.now)) }
    ensures { IsPlace result nodes.now (node_of node.now) }
{
    let index = nodes.len();
    match node {
        ListNode::Case(left, right) => {
            if is_hidden(nodes, *left) && is_hidden(nodes, *right) {
                return Err(CodecRefusal::BothHidden { node: index });
            }
            Ok(())
        }
        ListNode::Comp(left, right) | ListNode::Pair(left, right) => {
            if is_hidden(nodes, *left) || is_hidden(nodes, *right) {
                return Err(CodecRefusal::HiddenPlace { node: index });
            }
            Ok(())
        }
        ListNode::Injl(child)
        | ListNode::Injr(child)
        | ListNode::Take(child)
        | ListNode::Drop(child) => {
            if is_hidden(nodes, *child) {
                return Err(CodecRefusal::HiddenPlace { node: index });
            }
            Ok(())
        }
        ListNode::Iden | ListNode::Unit | ListNode::Witness => Ok(()),
        ListNode::Hidden(_) | ListNode::Fail(_) | ListNode::Word(_) => Ok(()),
    }
}

/// Whether the node at a place is hidden.
pub(crate) fn is_hidden(nodes: &NodeList, place: usize) -> bool
    requires { place < length nodes.now }
    ensures { result ≡ reading.is_hidden (slice_get nodes.now place) }
{
    matches!(nodes.get(place), ListNode::Hidden(_))
}
