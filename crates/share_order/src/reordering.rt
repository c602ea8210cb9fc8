//! Lists reordered.

ghost use Rattle.std.specs.Prelude.{◌≡◌, ◌<◌, ◌≤◌, length, IfOk, IfErr};
ghost use Rattle.simplicity.specs.Light.{IsLightTyping};
ghost use Rattle.simplicity.specs.Limits.{most_nodes};
ghost use Rattle.simplicity.specs.Nodes.{HasRoot};
ghost use Rattle.simplicity.specs.Pruning.{IsReordered};
ghost use Rattle.simplicity.specs.Typing.{HasNoTyping, IsLeast};
ghost use Rattle.type_table.specs.Kinds.{IsGrown};
ghost use Rattle.infer_cells.specs.Constrained.{arrow_between};
ghost use Rattle.infer_cells.specs.Typings.{typing_in, AreBelowBound, LeastIsHeavy};
ghost use Rattle.share_order.specs.Refusals.{HasTyping, OnTooLarge, RefusesReordered};

use crate::gathering::gather;
use crate::least_places::least_places;
use crate::merging::merge;
use crate::places::Places;
use crate::refusal::CanonRefusal;
use crate::walk::post_order;
use infer_cells::{InferRefusal, Typing, infer};
use std::alloc::Global;
use term_core::NodeList;
use type_table::{TypeId, TypeTable};

/// The most nodes that a program may have (L6).
const MOST_NODES: usize = 1_048_576;

/// A list reordered, with its least typing, and for each of its nodes the least old place that became it.
#[derive(Drop)]
pub struct Reordered {
    pub nodes: NodeList,
    pub typing: Typing,
    pub places: Places,
}

/// The list of what the root reaches, in left-first post-order, with nodes that are equal in kind, children and least
/// arrow merged, unless they are witnesses. The list has a typing with the arrow between the two types at its root.
///
/// `TypeTooLarge` comes exactly where a type of the least typing of what is reached has a tree of more than 4,194,304
/// nodes, else `TooManyNodes` exactly where the new list has more than 1,048,576. After an error the table may have
/// gained types.
pub fn reorder(
    alloc: Global,
    nodes: &NodeList,
    source: TypeId,
    target: TypeId,
    types: &mut TypeTable,
) -> Result<Reordered, CanonRefusal>
    requires rooted { HasRoot nodes.now }
    requires source { source < length types.old }
    requires target { target < length types.old }
    requires typed { HasTyping nodes.now (arrow_between types.old source target) }
    ensures reordered { IfOk result (λ r. IsReordered nodes.now (arrow_between types.old source target)
        r.nodes (typing_in types.new r.typing) r.places) }
    ensures light { IfOk result (λ r. IsLightTyping r.nodes (typing_in types.new r.typing)) }
    ensures there { IfOk result (λ r. AreBelowBound (length types.new) r.typing) }
    ensures few { IfOk result (λ r. length r.nodes ≤ most_nodes) }
    ensures refused { IfErr result (RefusesReordered nodes.now (arrow_between types.old source target)) }
    ensures grown { IsGrown types.old types.new }
{
    let reordered = reorder_all(alloc, nodes, source, target, types)?;
    if reordered.nodes.len() > MOST_NODES {
        return Err(CanonRefusal::TooManyNodes);
    }
    Ok(reordered)
}

/// The list reordered, however many nodes it has.
fn reorder_all(
    alloc: Global,
    nodes: &NodeList,
    source: TypeId,
    target: TypeId,
    types: &mut TypeTable,
) -> Result<Reordered, CanonRefusal>
    requires rooted { HasRoot nodes.now }
    requires source { source < length types.old }
    requires target { target < length types.old }
    requires typed { HasTyping nodes.now (arrow_between types.old source target) }
    ensures reordered { IfOk result (λ r. IsReordered nodes.now (arrow_between types.old source target)
        r.nodes (typing_in types.new r.typing) r.places) }
    ensures light { IfOk result (λ r. IsLightTyping r.nodes (typing_in types.new r.typing)) }
    ensures there { IfOk result (λ r. AreBelowBound (length types.new) r.typing) }
    ensures refused { IfErr result (RefusesReordered nodes.now (arrow_between types.old source target)) }
    ensures grown { IsGrown types.old types.new }
{
    let _placed = nodes.as_slice();
    let order = post_order(alloc, nodes)?;
    let list = gather(alloc, nodes, order.as_slice())?;
    let typing = match least_typing(alloc, &list, source, target, types) {
        Ok(typing) => typing,
        Err(refusal) => return Err(refusal),
    };
    let merged = merge(alloc, &list, &typing, types)?;
    let places = least_places(
        alloc,
        order.as_slice(),
        merged.places.as_slice(),
        merged.nodes.len(),
        nodes.len(),
    )?;
    Ok(Reordered {
        nodes: merged.nodes,
        typing: merged.typing,
        places: Places::from_numbers(places),
    })
}

/// The least typing of a list that has one.
fn least_typing(
    alloc: Global,
    list: &NodeList,
    source: TypeId,
    target: TypeId,
    types: &mut TypeTable,
) -> Result<Typing, CanonRefusal>
    requires rooted { HasRoot list.now }
    requires source { source < length types.old }
    requires target { target < length types.old }
    requires typed { HasNoTyping list.now (arrow_between types.old source target) → ⊥ }
    ensures least { IfOk result (λ typing.
        IsLeast list.now (arrow_between types.old source target) (typing_in types.new typing)) }
    ensures light { IfOk result (λ typing. IsLightTyping list.now (typing_in types.new typing)) }
    ensures there { IfOk result (λ typing. AreBelowBound (length types.new) typing) }
    ensures count { IfOk result (λ typing. length typing ≡ length list.now) }
    ensures heavy { IfErr result (λ e.
        OnTooLarge e (LeastIsHeavy list.now (arrow_between types.old source target))) }
    ensures grown { IsGrown types.old types.new }
{
    match infer(alloc, list, source, target, types) {
        Ok(typing) => Ok(typing),
        Err(InferRefusal::NoTyping) => unreachable!(),
        Err(InferRefusal::TypeTooLarge) => Err(CanonRefusal::TypeTooLarge),
        Err(InferRefusal::OutOfMemory) => Err(CanonRefusal::OutOfMemory),
    }
}
