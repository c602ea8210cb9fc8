//! The bounds of one node.

ghost use Rattle.std.specs.Prelude.{◌≡◌, ◌+◌, ◌<◌, ◌≤◌, length, slice_get, Some};
ghost use Rattle.simplicity.specs.Bounds as spec;
ghost use Rattle.simplicity.specs.Bounds.{stated};
ghost use Rattle.simplicity.specs.Limits.{most_weight};
ghost use Rattle.simplicity.specs.Types.{size, weight};
ghost use Rattle.simplicity.specs.Typing.{IsEntryLight, IsLight, target_at};
ghost use Rattle.infer_cells.specs.Typings.{arrow_in, typing_in, IsBelowBound, AreBelowBound};
ghost use Rattle.term_core.specs.Nodes.{node_of};
ghost use Rattle.type_table.specs.Kinds.{kind_at};
ghost use Rattle.cost_bound.specs.Numbers.{numbers, entries_of, AreWorks, flattened, injl_bounds, injr_bounds};

use crate::bound::Bounds;
use crate::writing::{pads, word_work};
use infer_cells::{NodeArrow, Typing};
use term_core::ListNode;
use type_table::{Shape, TypeId, TypeTable};

/// The bounds of a node with this arrow, from those of the nodes before it and the works of writing values.
pub(crate) fn node_bounds(
    node: &ListNode,
    arrow: &NodeArrow,
    entries: &[Option<Bounds>],
    works: &[u64],
    typing: &Typing,
    types: &TypeTable,
) -> Bounds
    requires arrow { IsBelowBound (length types.now) (Some arrow.now) }
    requires light { IsEntryLight most_weight (arrow_in types.now (Some arrow.now)) }
    requires works { AreWorks types.now works.now }
    requires written { arrow.now.target < length works.now }
    requires typing { AreBelowBound (length types.now) typing.now }
    requires lights { IsLight most_weight (typing_in types.now typing.now) }
    ensures { numbers result ≡ stated (spec.node_bounds (typing_in types.now typing.now) (entries_of entries.now)
        (node_of node.now) (kind_at types.now arrow.now.source) (kind_at types.now arrow.now.target)) }
{
    match node {
        ListNode::Iden => Bounds::leaf(types.size(arrow.source).saturating_add(1)),
        ListNode::Unit | ListNode::Fail(_) => Bounds::leaf(1),
        ListNode::Witness => Bounds::leaf(works[arrow.target]),
        ListNode::Word(word) => Bounds::leaf(word_work(word)),
        ListNode::Injl(child) => on_left(entry_at(entries, *child), arrow.target, types),
        ListNode::Injr(child) => on_right(entry_at(entries, *child), arrow.target, types),
        ListNode::Take(child) => entry_at(entries, *child).above(0),
        ListNode::Drop(child) => entry_at(entries, *child).above(2),
        ListNode::Pair(first, second) => {
            entry_at(entries, *first).both(entry_at(entries, *second))
        }
        ListNode::Case(left, right) => case_bounds(entries, *left, *right),
        ListNode::Comp(first, second) => {
            let cells = cells_between(*first, typing, types);
            entry_at(entries, *first).through(entry_at(entries, *second), cells)
        }
        ListNode::Hidden(_) => Bounds::leaf(0),
    }
}

/// The bounds at a place; those of no work where none stand there.
pub(crate) fn entry_at(entries: &[Option<Bounds>], place: usize) -> Bounds
    ensures { numbers result ≡ spec.bounds_at (entries_of entries.now) place }
{
    match entries.get(place) {
        Some(Some(bounds)) => *bounds,
        _ => Bounds::leaf(0),
    }
}

/// The bounds of a case or an assertion.
fn case_bounds(entries: &[Option<Bounds>], left: usize, right: usize) -> Bounds
    ensures { numbers result ≡ stated (spec.case_bounds
        (slice_get (entries_of entries.now) left) (slice_get (entries_of entries.now) right)) }
{
    match entries.get(left) {
        Some(Some(first)) => match entries.get(right) {
            Some(Some(second)) => first.either(*second),
            _ => first.above(3),
        },
        _ => entry_at(entries, right).above(3),
    }
}

/// The bounds of a term that tags its child's value on the left.
fn on_left(child: Bounds, target: TypeId, types: &TypeTable) -> Bounds
    requires there { target < length types.now }
    requires light { weight (kind_at types.now target) ≤ most_weight }
    ensures { numbers result ≡ stated (injl_bounds (numbers child) (kind_at types.now target)) }
{
    match types.shape(target) {
        Shape::Sum(left, right) => child.above(pads(left, right, types).0.saturating_add(2)),
        _ => Bounds::leaf(0),
    }
}

/// The bounds of a term that tags its child's value on the right.
fn on_right(child: Bounds, target: TypeId, types: &TypeTable) -> Bounds
    requires there { target < length types.now }
    requires light { weight (kind_at types.now target) ≤ most_weight }
    ensures { numbers result ≡ stated (injr_bounds (numbers child) (kind_at types.now target)) }
{
    match types.shape(target) {
        Shape::Sum(left, right) => child.above(pads(left, right, types).1.saturating_add(2)),
        _ => Bounds::leaf(0),
    }
}

/// The cells of the frame between the two parts of a composition.
fn cells_between(first: usize, typing: &Typing, types: &TypeTable) -> u64
    requires typing { AreBelowBound (length types.now) typing.now }
    requires light { IsLight most_weight (typing_in types.now typing.now) }
    ensures { result ≡ size (target_at (typing_in types.now typing.now) first) }
{
    match arrow_at(typing, first) {
        Some(arrow) => types.size(arrow.target),
        None => 0,
    }
}

/// The arrow of the node at a place, where it has one.
pub(crate) fn arrow_at(typing: &Typing, place: usize) -> Option<NodeArrow>
    ensures { result ≡ flattened (slice_get typing.now place) }
{
    match typing.as_slice().get(place) {
        Some(arrow) => *arrow,
        None => None,
    }
}
