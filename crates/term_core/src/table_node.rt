//! The nodes of a table.

use type_table::TypeId;
use word_math::Word;

/// The number of a node in its table.
pub type NodeId = usize;

/// A node of a table, which names its children by their numbers.
///
/// An assertion carries the 32 bytes of the root that stands for its hidden side, a witness its own number.
#[derive(Clone, Copy, Debug, PartialEq, Eq, Hash)]
pub enum Node {
    Iden,
    Unit,
    Injl(NodeId),
    Injr(NodeId),
    Take(NodeId),
    Drop(NodeId),
    Comp(NodeId, NodeId),
    Case(NodeId, NodeId),
    Pair(NodeId, NodeId),
    AssertL(NodeId, [u8; 32]),
    AssertR([u8; 32], NodeId),
    Fail,
    Witness(usize),
    Word(Word),
}

/// A node with its arrow.
#[derive(Clone, Copy, Debug, PartialEq, Eq, Hash)]
pub struct TermRow {
    pub node: Node,
    pub source: TypeId,
    pub target: TypeId,
}
