//! The nodes that are made so far, none of them twice.

ghost use Rattle.std.specs.Prelude.{◌≡◌, ℕ, slice_get, Some, IfSome, IfNone, IfOk};
ghost use Rattle.small_terms.specs.Emitting.{Adds};
ghost use Rattle.small_terms.specs.Kinds.{node_of};
ghost use Rattle.term_core.specs.Nodes as list;

use std::alloc::AllocError;
use term_core::ListNode;

/// A node of a kind that small sources need; it names its children by their places.
#[derive(Clone, Copy, Debug, PartialEq, Eq)]
pub(crate) enum SmallNode {
    Iden,
    Take(usize),
    Drop(usize),
    Pair(usize, usize),
}

impl SmallNode {
    /// The same node for a list of nodes of every kind.
    pub fn list_node(self) -> ListNode
        ensures { list.node_of result ≡ node_of self }
    {
        match self {
            SmallNode::Iden => ListNode::Iden,
            SmallNode::Take(child) => ListNode::Take(child),
            SmallNode::Drop(child) => ListNode::Drop(child),
            SmallNode::Pair(left, right) => ListNode::Pair(left, right),
        }
    }
}

/// A node, and how many bytes its input has.
#[derive(Clone, Copy, Debug, PartialEq, Eq)]
pub(crate) struct Entry {
    pub node: SmallNode,
    pub count: usize,
}

/// The place of an entry, which is added where it isn't there yet.
pub(crate) fn add(entries: &mut Vec<Entry>, entry: Entry) -> Result<usize, AllocError>
    ensures { IfOk result (λ at. Adds entries.old.items entry entries.new.items at) }
{
    match place_of(entries.as_slice(), entry) {
        Some(at) => Ok(at),
        None => {
            let at = entries.len();
            entries.push(entry)?;
            Ok(at)
        }
    }
}

/// The first place of an entry.
fn place_of(entries: &[Entry], wanted: Entry) -> Option<usize>
    ensures found { IfSome result (λ at. slice_get entries.now at ≡ Some wanted) }
    ensures none { IfNone result ((i : ℕ) → ¬ (slice_get entries.now i ≡ Some wanted)) }
{
    entries.iter().position(|entry| *entry == wanted)
}
