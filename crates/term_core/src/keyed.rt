//! The keys by which a table finds its rows.

ghost use Rattle.std.specs.Prelude.{◌≡◌};
ghost use Rattle.term_core.specs.Keys.{turn_of};

use crate::table_node::{Node, NodeId, TermRow};

/// A row with what tells it from equal rows: each witness stands for itself, and every other row stands once.
#[derive(Clone, Copy, PartialEq, Eq, Hash)]
pub(crate) struct KeyedRow {
    pub row: TermRow,
    // A witness's own id, and 0 for every other node.
    pub turn: usize,
}

/// The key of a row that would stand at an id.
pub(crate) fn keyed_row(row: TermRow, id: NodeId) -> KeyedRow
    ensures row { result.row ≡ row }
    ensures turn { result.turn ≡ turn_of row.node id }
{
    let turn = match row.node {
        Node::Witness(_) => id,
        _ => 0,
    };
    KeyedRow { row, turn }
}
