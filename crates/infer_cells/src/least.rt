//! The least typing of a list.

ghost use Rattle.std.specs.Prelude.{◌≡◌, ◌<◌, ◌≤◌, ◌^◌, true, false, length, IfOk, IfErr};
ghost use Rattle.simplicity.specs.Light.{IsLightTyping};
ghost use Rattle.simplicity.specs.Limits.{most_weight};
ghost use Rattle.simplicity.specs.Nodes.{HasRoot};
ghost use Rattle.simplicity.specs.Typing.{HasNoTyping, IsLeast, IsLight, IsEntryLight};
ghost use Rattle.type_table.specs.Kinds.{IsGrown};
ghost use Rattle.infer_cells.specs.Cells.{OnNoTyping};
ghost use Rattle.infer_cells.specs.Constrained.{arrow_between};
ghost use Rattle.infer_cells.specs.Emission.{IsWithinPlace, ArePlacesWithin};
ghost use Rattle.infer_cells.specs.Ids.{id_arrow, id_arrows};
ghost use Rattle.infer_cells.specs.Typings.{arrow_in, typing_in, IsBelowBound, AreBelowBound, LeastIsHeavy, Refuses};

use crate::cell::Place;
use crate::constrain::constrain;
use crate::refusal::{InferRefusal, SolveRefusal};
use crate::typing::{NodeArrow, Typing};
use crate::walk::type_cells;
use std::alloc::{AllocError, Global};
use term_core::NodeList;
use type_table::{MOST_WEIGHT, TypeId, TypeTable};

/// The least typing of a list with an arrow at its root: at each node it lies at or below every other one.
///
/// `NoTyping` comes exactly where no typing has the arrow, and `TypeTooLarge` exactly where a type of the least one
/// has a tree of more than 4,194,304 nodes. After an error the table may have gained types.
pub fn infer(
    alloc: Global,
    nodes: &NodeList,
    source: TypeId,
    target: TypeId,
    types: &mut TypeTable,
) -> Result<Typing, InferRefusal>
    requires rooted { HasRoot nodes.now }
    requires source { source < length types.old }
    requires target { target < length types.old }
    ensures least { IfOk result (λ typing.
        IsLeast nodes.now (arrow_between types.old source target) (typing_in types.new typing)) }
    ensures light { IfOk result (λ typing. IsLightTyping nodes.now (typing_in types.new typing)) }
    ensures there { IfOk result (λ typing. AreBelowBound (length types.new) typing) }
    ensures refused { IfErr result (λ e. Refuses e
        (HasNoTyping nodes.now (arrow_between types.old source target))
        (LeastIsHeavy nodes.now (arrow_between types.old source target))) }
    ensures grown { IsGrown types.old types.new }
{
    let typing = match least_typing(alloc, nodes, source, target, types) {
        Ok(typing) => typing,
        Err(SolveRefusal::NoTyping) => return Err(InferRefusal::NoTyping),
        Err(SolveRefusal::OutOfMemory) => return Err(InferRefusal::OutOfMemory),
    };
    if is_light(&typing, types) {
        Ok(typing)
    } else {
        Err(InferRefusal::TypeTooLarge)
    }
}

/// The least typing, whatever its types' weights are.
fn least_typing(
    alloc: Global,
    nodes: &NodeList,
    source: TypeId,
    target: TypeId,
    types: &mut TypeTable,
) -> Result<Typing, SolveRefusal>
    requires rooted { HasRoot nodes.now }
    requires source { source < length types.old }
    requires target { target < length types.old }
    ensures least { IfOk result (λ typing.
        IsLeast nodes.now (arrow_between types.old source target) (typing_in types.new typing)) }
    ensures there { IfOk result (λ typing. AreBelowBound (length types.new) typing) }
    ensures none { IfErr result (λ e.
        OnNoTyping e (HasNoTyping nodes.now (arrow_between types.old source target))) }
    ensures grown { IsGrown types.old types.new }
{
    let constraints = match constrain(alloc, nodes, source, target, types) {
        Ok(constraints) => constraints,
        Err(refusal) => return Err(refusal),
    };
    let ids = match type_cells(alloc, constraints.cells.as_slice(), types) {
        Ok(ids) => ids,
        Err(refusal) => return Err(refusal),
    };
    Ok(arrows(alloc, constraints.places.as_slice(), ids.as_slice())?)
}

/// The arrows of places, by the ids of their cells.
fn arrows(alloc: Global, places: &[Option<Place>], ids: &[TypeId]) -> Result<Typing, AllocError>
    requires { ArePlacesWithin (length ids.now) places.now }
    ensures { IfOk result (λ typing. typing ≡ id_arrows ids.now places.now) }
{
    let mut typing = Typing::new(alloc);
    for place in places {
        typing.push(arrow_at(place, ids))?;
    }
    Ok(typing)
}

/// The arrow of a place.
fn arrow_at(place: &Option<Place>, ids: &[TypeId]) -> Option<NodeArrow>
    requires { IsWithinPlace (length ids.now) place.now }
    ensures { result ≡ id_arrow ids.now place.now }
{
    match place {
        Some(place) => Some(NodeArrow {
            source: ids[place.source],
            target: ids[place.target],
        }),
        None => None,
    }
}

/// Whether no type of a typing has a tree of more than 4,194,304 nodes.
fn is_light(typing: &Typing, types: &TypeTable) -> bool
    requires { AreBelowBound (length types.now) typing.now }
    ensures light { result ≡ true → IsLight most_weight (typing_in types.now typing.now) }
    ensures heavy { result ≡ false → IsLight most_weight (typing_in types.now typing.now) → ⊥ }
{
    for arrow in typing.as_slice() {
        if !is_entry_light(arrow, types) {
            return false;
        }
    }
    true
}

/// Whether neither type of a node's arrow is too large.
fn is_entry_light(arrow: &Option<NodeArrow>, types: &TypeTable) -> bool
    requires { IsBelowBound (length types.now) arrow.now }
    ensures light { result ≡ true → IsEntryLight most_weight (arrow_in types.now arrow.now) }
    ensures heavy { result ≡ false → IsEntryLight most_weight (arrow_in types.now arrow.now) → ⊥ }
{
    match arrow {
        Some(arrow) => {
            types.weight(arrow.source) <= MOST_WEIGHT && types.weight(arrow.target) <= MOST_WEIGHT
        }
        None => true,
    }
}
