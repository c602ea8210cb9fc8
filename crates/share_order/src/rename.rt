//! Nodes with their children's places changed.

ghost use Rattle.std.specs.Prelude.{◌≡◌, length};
ghost use Rattle.simplicity.specs.Nodes as nodes;
ghost use Rattle.simplicity.specs.Pruning as spec;
ghost use Rattle.term_core.specs.Nodes.{node_of};
ghost use Rattle.share_order.specs.Keys.{place_at};

use term_core::ListNode;

/// The node with the new place of each child.
pub(crate) fn renamed(node: &ListNode, places: &[usize]) -> ListNode
    requires { nodes.AreUnder (length places.now) (nodes.children (node_of node.now)) }
    ensures { node_of result ≡ spec.renamed (place_at places.now) (node_of node.now) }
{
    match node {
        ListNode::Injl(child) => ListNode::Injl(places[*child]),
        ListNode::Injr(child) => ListNode::Injr(places[*child]),
        ListNode::Take(child) => ListNode::Take(places[*child]),
        ListNode::Drop(child) => ListNode::Drop(places[*child]),
        ListNode::Comp(left, right) => ListNode::Comp(places[*left], places[*right]),
        ListNode::Case(left, right) => ListNode::Case(places[*left], places[*right]),
        ListNode::Pair(left, right) => ListNode::Pair(places[*left], places[*right]),
        other => *other,
    }
}
