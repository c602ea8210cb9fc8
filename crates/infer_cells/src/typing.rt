//! Typings of lists of nodes.

ghost use Rattle.std.specs.Prelude.{◌≡◌, ◌<◌, [], ◌∷◌, ◌++◌, length, slice_get, OnOk, OnErr, Some};

use std::alloc::{AllocError, Global};
use std::marker::Model;
use type_table::TypeId;

/// The ids of a node's source and target.
#[derive(Clone, Copy, Debug, PartialEq, Eq, Hash)]
pub struct NodeArrow {
    pub source: TypeId,
    pub target: TypeId,
}

/// For each node of a list its arrow, and none for a hidden node. The ids are those of one table of types.
#[derive(Drop)]
pub struct Typing {
    arrows: Vec<Option<NodeArrow>>,
}

impl Model for Typing {
    ghost use Rattle.std.specs.Prelude.{List, Option};
    ghost use Rattle.infer_cells.specs.declared.typing.NodeArrow.{NodeArrow};

    ghost Value = { List (Option NodeArrow) };

    ghost view = { λ t. t.arrows.items };
}

impl Typing {
    /// The empty list. It takes no memory.
    pub fn new(alloc: Global) -> Typing
        ensures { result ≡ [] }
    {
        Typing {
            arrows: Vec::new(alloc),
        }
    }

    /// Appends a node's arrow. After an error the list is as before.
    pub fn push(&mut self, arrow: Option<NodeArrow>) -> Result<(), AllocError>
        ensures ok { OnOk result (self.new ≡ self.old ++ arrow ∷ []) }
        ensures err { OnErr result (self.new ≡ self.old) }
    {
        self.arrows.push(arrow)?;
        Ok(())
    }

    /// The number of nodes.
    pub fn len(&self) -> usize
        ensures { result ≡ length self.now }
    {
        self.arrows.len()
    }

    /// The arrow of the node at a place.
    pub fn get(&self, place: usize) -> &Option<NodeArrow>
        requires { place < length self.now }
        ensures { slice_get self.now place ≡ Some result.now }
    {
        &self.arrows[place]
    }

    /// The arrows in the order of the nodes.
    pub fn as_slice(&self) -> &[Option<NodeArrow>]
        ensures { result.now ≡ self.now }
    {
        self.arrows.as_slice()
    }
}
