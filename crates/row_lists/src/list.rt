//! The list of a table's rows.

ghost use Rattle.std.specs.Prelude.{◌<◌, length, IfOk};
ghost use Rattle.term_core.specs.Terms.{StandsOver};
ghost use Rattle.row_lists.specs.Rows.{IsRowList};

use crate::node::{list_node, push_hidden, push_name};
use infer_cells::{NodeArrow, Typing};
use std::alloc::{AllocError, Global};
use term_core::{NodeId, NodeList, TermTable, terms_are_typed_law};
use type_table::TypeTable;

/// A list of nodes with an arrow for each that isn't hidden, and the numbers of its witness nodes in their order.
#[derive(Drop)]
pub struct RowList {
    pub nodes: NodeList,
    pub arrows: Typing,
    pub names: Vec<usize>,
}

/// The rows of a table up to one, as a list that ends with the node of that row. An assertion becomes a hidden node
/// and a case. The list has what the row doesn't reach too, and a hidden node for each assertion.
pub fn list_rows(
    alloc: Global,
    table: &TermTable,
    root: NodeId,
    types: &TypeTable,
) -> Result<RowList, AllocError>
    requires there { root < length table.now }
    requires stands { StandsOver types.now table.now }
    ensures { IfOk result (λ r. IsRowList types.now table.now root r.nodes r.arrows r.names.items) }
{
    let _types = types;
    let _len = table.len();
    terms_are_typed_law();
    let mut nodes = NodeList::new(alloc);
    let mut arrows = Typing::new(alloc);
    let mut names = Vec::new(alloc);
    let mut places = Vec::new(alloc);
    for id in 0..root + 1 {
        let node = table.node(id);
        let (source, target) = table.arrow(id);
        let hidden = push_hidden(&mut nodes, &mut arrows, &node)?;
        push_name(&mut names, &node)?;
        let place = nodes.len();
        nodes.push(list_node(&node, places.as_slice(), hidden))?;
        arrows.push(Some(NodeArrow { source, target }))?;
        places.push(place)?;
    }
    let _placed = nodes.as_slice();
    Ok(RowList {
        nodes,
        arrows,
        names,
    })
}
