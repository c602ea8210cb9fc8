//! The root of one node.

ghost use Rattle.std.specs.Prelude.{◌≡◌, length, replicate};
ghost use Rattle.simplicity.specs.Nodes.{AreUnder, children};
ghost use Rattle.simplicity.specs.Roots as spec;
ghost use Rattle.simplicity.specs.Terms as term;
ghost use Rattle.term_core.specs.Nodes.{node_of};
ghost use Rattle.root_hash.specs.NodeRoot as by_node;

use crate::tag::{constant, double, single, tagged};
use crate::word::word_root;
use term_core::ListNode;

/// The root of a node, from those of the nodes before it.
pub(crate) fn node_root(node: &ListNode, roots: &[[u8; 32]]) -> [u8; 32]
    requires { AreUnder (length roots.now) (children (node_of node.now)) }
    ensures { result ≡ by_node.node_root roots.now (node_of node.now) }
{
    match node {
        ListNode::Iden => constant(b"simphl/iden"),
        ListNode::Unit => constant(b"simphl/unit"),
        ListNode::Witness => constant(b"simphl/witness"),
        ListNode::Injl(child) => single(b"simphl/injl", &roots[*child]),
        ListNode::Injr(child) => single(b"simphl/injr", &roots[*child]),
        ListNode::Take(child) => single(b"simphl/take", &roots[*child]),
        ListNode::Drop(child) => single(b"simphl/drop", &roots[*child]),
        ListNode::Comp(left, right) => double(b"simphl/comp", &roots[*left], &roots[*right]),
        ListNode::Case(left, right) => double(b"simphl/case", &roots[*left], &roots[*right]),
        ListNode::Pair(left, right) => double(b"simphl/pair", &roots[*left], &roots[*right]),
        ListNode::Hidden(bytes) => *bytes,
        ListNode::Fail(bytes) => failure_root(bytes),
        ListNode::Word(word) => word_root(word),
    }
}

/// The root of a failure of 64 bytes.
fn failure_root(bytes: &[u8; 64]) -> [u8; 32]
    ensures { result ≡ spec.root (term.Fail bytes.now) }
{
    let (first, second) = bytes.as_slice().split_at(32);
    tagged(b"simphl/fail", first, second)
}

/// The root of the failure of zero bytes, which stands for the hidden side of an assertion that is compiled.
pub fn fail_root() -> [u8; 32]
    ensures { result ≡ spec.root (term.Fail (replicate 64 0)) }
{
    failure_root(&[0; 64])
}
