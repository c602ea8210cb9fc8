//! Lists with equal nodes merged.

ghost use Rattle.std.specs.Prelude.{◌≡◌, ◌<◌, length, IfOk};
ghost use Rattle.simplicity.specs.Nodes.{IsPlaced};
ghost use Rattle.simplicity.specs.Order.{IsOrdered};
ghost use Rattle.infer_cells.specs.Typings.{typing_in, AreBelowBound};
ghost use Rattle.share_order.specs.Keys.{place_at, keys_of, nodes_in, arrows_in};
ghost use Rattle.share_order.specs.Merged.{IsMergedInOrder};

use crate::classes::{NodeKey, classes};
use crate::tell::tell_apart;
use indexmap::IndexSet;
use infer_cells::Typing;
use std::alloc::{AllocError, Global};
use term_core::NodeList;
use type_table::TypeTable;

/// A list in which equal nodes of another are one, and where each node of that went.
#[derive(Drop)]
pub struct Merged {
    pub nodes: NodeList,
    pub typing: Typing,
    pub places: Vec<usize>,
}

/// Merges the nodes of an ordered list that are equal in kind, children and arrow and are no witnesses.
/// The arrows are of the types of the table, with none for a hidden node.
pub fn merge(
    alloc: Global,
    nodes: &NodeList,
    typing: &Typing,
    types: &TypeTable,
) -> Result<Merged, AllocError>
    requires full { 0 < length nodes.now }
    requires ordered { IsOrdered nodes.now }
    requires count { length typing.now ≡ length nodes.now }
    requires there { AreBelowBound (length types.now) typing.now }
    ensures merged { IfOk result (λ r. IsMergedInOrder nodes.now (typing_in types.now typing.now)
        r.nodes (typing_in types.now r.typing) (place_at r.places.items)) }
    ensures there { IfOk result (λ r. AreBelowBound (length types.now) r.typing) }
    ensures all { IfOk result (λ r. length r.places.items ≡ length nodes.now) }
{
    let _placed = nodes.as_slice();
    tell_apart(typing, types);
    let classes = classes(alloc, nodes, typing)?;
    let nodes = class_nodes(alloc, &classes.keys)?;
    let typing = class_typing(alloc, &classes.keys)?;
    Ok(Merged {
        nodes,
        typing,
        places: classes.places,
    })
}

/// The nodes of the classes.
fn class_nodes(alloc: Global, keys: &IndexSet<NodeKey>) -> Result<NodeList, AllocError>
    requires { IsPlaced (nodes_in (keys_of keys.now.keys)) }
    ensures { IfOk result (λ nodes. nodes ≡ nodes_in (keys_of keys.now.keys)) }
{
    let mut nodes = NodeList::new(alloc);
    for index in 0..keys.len() {
        match keys.get_index(index) {
            Some(key) => nodes.push(key.node)?,
            None => unreachable!(),
        }
    }
    Ok(nodes)
}

/// The arrows of the classes.
fn class_typing(alloc: Global, keys: &IndexSet<NodeKey>) -> Result<Typing, AllocError>
    ensures { IfOk result (λ typing. typing ≡ arrows_in (keys_of keys.now.keys)) }
{
    let mut typing = Typing::new(alloc);
    for index in 0..keys.len() {
        match keys.get_index(index) {
            Some(key) => typing.push(key.arrow)?,
            None => unreachable!(),
        }
    }
    Ok(typing)
}
