//! Tables of terms.

ghost use Rattle.std.specs.Prelude.{◌≡◌, ◌<◌, [], ◌∷◌, ◌++◌, ℕ, length, slice_get, Some, Ok, IfOk, OnErr};
ghost use Rattle.term_core.specs.Rows.{row_of, IsFoundAt, IsNew, AreDistinct};
ghost use Rattle.term_core.specs.Terms.{terms, row_term, MayFollow, StandsOver, MeansTerm, KeepsRows, HasRow};

use crate::keyed::{KeyedRow, keyed_row};
use crate::table_node::{Node, NodeId, TermRow};
use indexmap::IndexSet;
use std::alloc::{AllocError, Global};
use std::marker::Model;
use type_table::{TypeId, TypeTable};

/// Terms by number, over one table of types. No two rows but those of witnesses are equal. An id means the same
/// term after every call, also after one that ran out of memory.
#[derive(Drop)]
pub struct TermTable {
    // A row's id is found by its hash.
    rows: IndexSet<KeyedRow>,
}

impl Model for TermTable {
    ghost use Rattle.std.specs.Prelude.{List};
    ghost use Rattle.term_core.specs.declared.table_node.TermRow.{TermRow};
    ghost use Rattle.term_core.specs.Keys.{rows_of, IsKeyed};

    ghost Value = { List TermRow };

    ghost view = { λ table. rows_of table.rows.keys };

    ghost invariant = { λ table. IsKeyed table.rows.keys };
}

impl TermTable {
    /// The empty table, which stands over every table of types. It takes no memory.
    pub fn new(alloc: Global) -> TermTable
        ensures { result ≡ [] }
    {
        TermTable {
            rows: IndexSet::new(alloc),
        }
    }

    /// The id of a node with an arrow over the terms that its children mean. A node other than a witness that
    /// stands there with the same arrow is found again; every other one gets a new row, at the end.
    /// After an error the table is as before.
    pub fn add(
        &mut self,
        node: Node,
        source: TypeId,
        target: TypeId,
        types: &TypeTable,
    ) -> Result<NodeId, AllocError>
        requires stands { StandsOver types.now self.old }
        requires follows { MayFollow types.now (terms types.now self.old) (row_of node source target) }
        ensures ok { IfOk result (λ id.
            MeansTerm types.now self.new id
            (row_term types.now (terms types.now self.old) (row_of node source target))) }
        ensures row { IfOk result (λ id. slice_get self.new id ≡ Some (row_of node source target)) }
        ensures found { (id : ℕ) → IsFoundAt self.old id (row_of node source target) →
            (result ≡ Ok id) × (self.new ≡ self.old) }
        ensures added { IsNew self.old (row_of node source target) → IfOk result (λ id.
            (id ≡ length self.old) × (self.new ≡ self.old ++ row_of node source target ∷ [])) }
        ensures err { OnErr result (self.new ≡ self.old) }
        ensures kept { KeepsRows self.old self.new }
        ensures stands { StandsOver types.now self.new }
        ensures distinct { AreDistinct self.new }
    {
        let _types = types;
        let row = TermRow {
            node,
            source,
            target,
        };
        let key = keyed_row(row, self.rows.len());
        let (id, _is_new) = self.rows.insert_full(key)?;
        Ok(id)
    }

    /// The node of an id.
    pub fn node(&self, id: NodeId) -> Node
        requires { id < length self.now }
        ensures { HasRow self.now id (λ row. row.node ≡ result) }
    {
        self.row(id).node
    }

    /// The ids of the source and the target of a node.
    pub fn arrow(&self, id: NodeId) -> (TypeId, TypeId)
        requires { id < length self.now }
        ensures { HasRow self.now id (λ row. (row.source ≡ result.0) × (row.target ≡ result.1)) }
    {
        let row = self.row(id);
        (row.source, row.target)
    }

    /// The number of nodes.
    pub fn len(&self) -> usize
        ensures length { result ≡ length self.now }
        ensures distinct { AreDistinct self.now }
    {
        self.rows.len()
    }

    /// The row of an id.
    fn row(&self, id: NodeId) -> TermRow
        requires { id < length self.now }
        ensures { slice_get self.now id ≡ Some result }
    {
        match self.rows.get_index(id) {
            Some(keyed) => keyed.row,
            None => unreachable!(),
        }
    }
}
