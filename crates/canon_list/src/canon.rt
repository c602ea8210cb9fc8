//! Canonical lists of terms.

ghost use Rattle.std.specs.Prelude.{◌≡◌, ◌<◌, ◌≤◌, length, IfOk, IfErr};
ghost use Rattle.simplicity.specs.Arrows.{declared_arrow};
ghost use Rattle.simplicity.specs.Canon.{erased, IsCanon};
ghost use Rattle.simplicity.specs.Light.{IsLightTyping};
ghost use Rattle.simplicity.specs.Limits.{most_nodes};
ghost use Rattle.simplicity.specs.Nodes.{tree_of};
ghost use Rattle.sharing.specs.Laws.{renumbered};
ghost use Rattle.type_table.specs.Kinds.{IsGrown};
ghost use Rattle.term_core.specs.Terms.{term_at, StandsOver};
ghost use Rattle.infer_cells.specs.Typings.{typing_in, AreBelowBound};
ghost use Rattle.canon_list.specs.Leaves.{WitnessesAreAlone};
ghost use Rattle.canon_list.specs.Canons.{name_at, RefusesCanon};

use crate::subterms::subterms;
use infer_cells::Typing;
use share_order::{CanonRefusal, Places, reorder};
use std::alloc::Global;
use term_core::{NodeId, NodeList, TermTable};
use type_table::TypeTable;

/// A canonical list with its least typing, and for each of its witness nodes, in their order, the number that the
/// witness has in the table.
#[derive(Drop)]
pub struct Canon {
    pub nodes: NodeList,
    pub typing: Typing,
    pub names: Places,
}

/// The canonical list of a table's term at its own arrow. Its subterms that agree in kind and in the declared arrow at
/// every place, and hold no witness, are one node; these are reordered under their least typing. The list's tree is the
/// term with its witnesses numbered anew. Each witness row has one place in the term.
///
/// `TypeTooLarge` comes exactly where a type of the least typing has a tree of more than 4,194,304 nodes, else
/// `TooManyNodes` exactly where the list has more than 1,048,576. After an error the table of types may have gained
/// types.
pub fn canonical(
    alloc: Global,
    table: &TermTable,
    root: NodeId,
    types: &mut TypeTable,
) -> Result<Canon, CanonRefusal>
    requires there { root < length table.now }
    requires stands { StandsOver types.old table.now }
    requires alone { WitnessesAreAlone table.now root }
    ensures canon { IfOk result (λ r. IsCanon (term_at types.old table.now root)
        (declared_arrow (term_at types.old table.now root)) r.nodes (typing_in types.new r.typing) r.names) }
    ensures tree { IfOk result (λ r.
        erased (term_at types.old table.now root) ≡ renumbered (name_at r.names) (tree_of r.nodes)) }
    ensures light { IfOk result (λ r. IsLightTyping r.nodes (typing_in types.new r.typing)) }
    ensures there { IfOk result (λ r. AreBelowBound (length types.new) r.typing) }
    ensures few { IfOk result (λ r. length r.nodes ≤ most_nodes) }
    ensures refused { IfErr result (RefusesCanon (term_at types.old table.now root)
        (declared_arrow (term_at types.old table.now root))) }
    ensures grown { IsGrown types.old types.new }
{
    let (source, target) = table.arrow(root);
    let subterms = subterms(alloc, table, root, types)?;
    let reordered = match reorder(alloc, &subterms.nodes, source, target, types) {
        Ok(reordered) => reordered,
        Err(refusal) => return Err(refusal),
    };
    Ok(Canon {
        nodes: reordered.nodes,
        typing: reordered.typing,
        names: Places::from_numbers(subterms.names),
    })
}
