//! The different subterms of a table's term.

ghost use Rattle.std.specs.Prelude.{◌<◌, length, IfOk};
ghost use Rattle.term_core.specs.Terms.{term_at, StandsOver};
ghost use Rattle.canon_list.specs.Leaves.{WitnessesAreAlone};
ghost use Rattle.canon_list.specs.Canons.{AreSubterms};

use crate::gathering::{gather_arrows, gather_names};
use row_lists::list_rows;
use share_order::{gather, merge, post_order};
use std::alloc::{AllocError, Global};
use term_core::{NodeId, NodeList, TermTable};
use type_table::TypeTable;

/// A list of the different subterms of a term, and the numbers that its witness nodes have in the table.
#[derive(Drop)]
pub(crate) struct NamedNodes {
    pub nodes: NodeList,
    pub names: Vec<usize>,
}

/// The different subterms of a table's term, in left-first post-order.
pub(crate) fn subterms(
    alloc: Global,
    table: &TermTable,
    root: NodeId,
    types: &TypeTable,
) -> Result<NamedNodes, AllocError>
    requires there { root < length table.now }
    requires stands { StandsOver types.now table.now }
    requires alone { WitnessesAreAlone table.now root }
    ensures { IfOk result (λ r. AreSubterms (term_at types.now table.now root) r.nodes r.names.items) }
{
    let rows = list_rows(alloc, table, root, types)?;
    let order = post_order(alloc, &rows.nodes)?;
    let nodes = gather(alloc, &rows.nodes, order.as_slice())?;
    let arrows = gather_arrows(alloc, &rows.arrows, order.as_slice())?;
    let names = gather_names(alloc, &rows.nodes, rows.names.as_slice(), order.as_slice())?;
    let merged = merge(alloc, &nodes, &arrows, types)?;
    Ok(NamedNodes {
        nodes: merged.nodes,
        names,
    })
}
