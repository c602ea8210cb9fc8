//! From nodes to cells and equations.

ghost use Rattle.std.specs.Prelude.{◌≡◌, ◌+◌, ◌<◌, ◌≤◌, [], ◌∷◌, ◌++◌, length, ◌^◌, Some, IfOk};
ghost use Rattle.simplicity.specs.Nodes.{AreUnder, children};
ghost use Rattle.simplicity.specs.Widths.{level_of};
ghost use Rattle.term_core.specs.Nodes.{node_of};
ghost use Rattle.infer_cells.specs.Emission as spec;
ghost use Rattle.infer_cells.specs.Emission.{emitted, emit_case, case_cells, word_cells};
ghost use Rattle.infer_cells.specs.Merged as merged;
ghost use Rattle.infer_cells.specs.declared.cell.Cell.TheVariants as content;

use crate::cell::{Cell, Equation, Place};
use std::alloc::AllocError;
use term_core::{ListNode, word_level};
use word_math::Word;

/// Adds the cells and the equations of a node, and gives the cells of its arrow; none for a hidden node.
pub(crate) fn emit(
    node: &ListNode,
    places: &[Option<Place>],
    cells: &mut Vec<Cell>,
    work: &mut Vec<Equation>,
) -> Result<Option<Place>, AllocError>
    requires { AreUnder (length places.now) (children (node_of node.now)) }
    ensures cells { IfOk result (λ _. cells.new.items ≡ cells.old.items
        ++ (emitted (length cells.old.items) places.now (node_of node.now)).cells) }
    ensures equations { IfOk result (λ _. work.new.items ≡ work.old.items
        ++ (emitted (length cells.old.items) places.now (node_of node.now)).equations) }
    ensures at { IfOk result (λ at.
        at ≡ (emitted (length cells.old.items) places.now (node_of node.now)).at) }
{
    match node {
        ListNode::Injl(child) => Ok(Some(emit_injl(place_at(places, *child), cells)?)),
        ListNode::Injr(child) => Ok(Some(emit_injr(place_at(places, *child), cells)?)),
        ListNode::Take(child) => Ok(Some(emit_take(place_at(places, *child), cells)?)),
        ListNode::Drop(child) => Ok(Some(emit_drop(place_at(places, *child), cells)?)),
        ListNode::Comp(left, right) => {
            let left = place_at(places, *left);
            let right = place_at(places, *right);
            equate(work, left.target, right.source)?;
            Ok(Some(Place {
                source: left.source,
                target: right.target,
            }))
        }
        ListNode::Pair(left, right) => {
            let left = place_at(places, *left);
            let right = place_at(places, *right);
            let target = cells.len();
            push(cells, Cell::Product(left.target, right.target))?;
            equate(work, left.source, right.source)?;
            Ok(Some(Place {
                source: left.source,
                target,
            }))
        }
        ListNode::Case(left, right) => Ok(emit_sides(places[*left], places[*right], cells, work)?),
        ListNode::Iden => {
            let both = cells.len();
            push(cells, Cell::Free)?;
            Ok(Some(Place {
                source: both,
                target: both,
            }))
        }
        ListNode::Unit => Ok(Some(emit_leaf(Cell::One, cells)?)),
        ListNode::Fail(_) => Ok(Some(emit_leaf(Cell::Free, cells)?)),
        ListNode::Witness => Ok(Some(emit_leaf(Cell::Free, cells)?)),
        ListNode::Word(word) => Ok(Some(emit_word(word, cells)?)),
        ListNode::Hidden(_) => Ok(None),
    }
}

/// The cells of a child's arrow. In a list whose hidden nodes are in their places it has one.
fn place_at(places: &[Option<Place>], child: usize) -> Place
    requires { child < length places.now }
    ensures { result ≡ spec.place_at places.now child }
{
    match places[child] {
        Some(place) => place,
        None => Place {
            source: 0,
            target: 0,
        },
    }
}

/// A source of any type and a target.
fn emit_leaf(target: Cell, cells: &mut Vec<Cell>) -> Result<Place, AllocError>
    ensures cells { IfOk result (λ _. cells.new.items ≡ cells.old.items ++ content.Free ∷ target ∷ []) }
    ensures at { IfOk result (λ at. at ≡ spec.place (length cells.old.items) (length cells.old.items + 1)) }
{
    let source = cells.len();
    push_both(cells, Cell::Free, target)?;
    Ok(Place {
        source,
        target: source + 1,
    })
}

/// The sum of the child's target and any type.
fn emit_injl(child: Place, cells: &mut Vec<Cell>) -> Result<Place, AllocError>
    ensures cells { IfOk result (λ _. cells.new.items ≡ cells.old.items
        ++ content.Free ∷ content.Sum child.target (length cells.old.items) ∷ []) }
    ensures at { IfOk result (λ at. at ≡ spec.place child.source (length cells.old.items + 1)) }
{
    let other = cells.len();
    push_both(cells, Cell::Free, Cell::Sum(child.target, other))?;
    Ok(Place {
        source: child.source,
        target: other + 1,
    })
}

/// The sum of any type and the child's target.
fn emit_injr(child: Place, cells: &mut Vec<Cell>) -> Result<Place, AllocError>
    ensures cells { IfOk result (λ _. cells.new.items ≡ cells.old.items
        ++ content.Free ∷ content.Sum (length cells.old.items) child.target ∷ []) }
    ensures at { IfOk result (λ at. at ≡ spec.place child.source (length cells.old.items + 1)) }
{
    let other = cells.len();
    push_both(cells, Cell::Free, Cell::Sum(other, child.target))?;
    Ok(Place {
        source: child.source,
        target: other + 1,
    })
}

/// The product of the child's source and any type.
fn emit_take(child: Place, cells: &mut Vec<Cell>) -> Result<Place, AllocError>
    ensures cells { IfOk result (λ _. cells.new.items ≡ cells.old.items
        ++ content.Free ∷ content.Product child.source (length cells.old.items) ∷ []) }
    ensures at { IfOk result (λ at. at ≡ spec.place (length cells.old.items + 1) child.target) }
{
    let other = cells.len();
    push_both(cells, Cell::Free, Cell::Product(child.source, other))?;
    Ok(Place {
        source: other + 1,
        target: child.target,
    })
}

/// The product of any type and the child's source.
fn emit_drop(child: Place, cells: &mut Vec<Cell>) -> Result<Place, AllocError>
    ensures cells { IfOk result (λ _. cells.new.items ≡ cells.old.items
        ++ content.Free ∷ content.Product (length cells.old.items) child.source ∷ []) }
    ensures at { IfOk result (λ at. at ≡ spec.place (length cells.old.items + 1) child.target) }
{
    let other = cells.len();
    push_both(cells, Cell::Free, Cell::Product(other, child.source))?;
    Ok(Place {
        source: other + 1,
        target: child.target,
    })
}

/// A case, or an assertion, whose one side has no arrow.
fn emit_sides(
    left: Option<Place>,
    right: Option<Place>,
    cells: &mut Vec<Cell>,
    work: &mut Vec<Equation>,
) -> Result<Option<Place>, AllocError>
    ensures cells { IfOk result (λ _. cells.new.items ≡ cells.old.items
        ++ (emit_case (length cells.old.items) (Some left) (Some right)).cells) }
    ensures equations { IfOk result (λ _. work.new.items ≡ work.old.items
        ++ (emit_case (length cells.old.items) (Some left) (Some right)).equations) }
    ensures at { IfOk result (λ at.
        at ≡ (emit_case (length cells.old.items) (Some left) (Some right)).at) }
{
    let first = cells.len();
    match left {
        Some(left) => {
            push_case(cells)?;
            equate(work, left.source, first + 3)?;
            if let Some(right) = right {
                equate(work, right.source, first + 4)?;
                equate(work, left.target, right.target)?;
            }
            Ok(Some(Place {
                source: first + 6,
                target: left.target,
            }))
        }
        None => match right {
            Some(right) => {
                push_case(cells)?;
                equate(work, right.source, first + 4)?;
                Ok(Some(Place {
                    source: first + 6,
                    target: right.target,
                }))
            }
            None => Ok(None),
        },
    }
}

/// The types of a case's sides and of its scrutinee, with what comes beside it.
fn push_case(cells: &mut Vec<Cell>) -> Result<(), AllocError>
    ensures cells { IfOk result (λ _. cells.new.items ≡ cells.old.items ++ case_cells (length cells.old.items)) }
    ensures bound { IfOk result (λ _. length cells.old.items + 7 < 2 ^ 63) }
{
    let first = cells.len();
    push_both(cells, Cell::Free, Cell::Free)?;
    push(cells, Cell::Free)?;
    push(cells, Cell::Product(first, first + 2))?;
    push(cells, Cell::Product(first + 1, first + 2))?;
    push(cells, Cell::Sum(first, first + 1))?;
    push(cells, Cell::Product(first + 5, first + 2))?;
    Ok(())
}

/// The type of a word, by doubling from a bit.
fn emit_word(word: &Word, cells: &mut Vec<Cell>) -> Result<Place, AllocError>
    ensures cells { IfOk result (λ _. cells.new.items ≡ cells.old.items
        ++ word_cells (level_of word.now.width) (length cells.old.items)) }
    ensures at { IfOk result (λ at.
        at ≡ spec.place (length cells.old.items) (length cells.old.items + 1 + level_of word.now.width)) }
{
    let unit = cells.len();
    push_both(cells, Cell::One, Cell::Sum(unit, unit))?;
    let mut last = unit + 1;
    for _ in 0..word_level(word) {
        push(cells, Cell::Product(last, last))?;
        last += 1;
    }
    Ok(Place {
        source: unit,
        target: last,
    })
}

/// Appends a cell.
fn push(cells: &mut Vec<Cell>, cell: Cell) -> Result<(), AllocError>
    ensures { IfOk result (λ _. cells.new.items ≡ cells.old.items ++ cell ∷ []) }
{
    cells.push(cell)?;
    Ok(())
}

/// Appends two cells.
fn push_both(cells: &mut Vec<Cell>, first: Cell, second: Cell) -> Result<(), AllocError>
    ensures { IfOk result (λ _. cells.new.items ≡ cells.old.items ++ first ∷ second ∷ []) }
{
    cells.push(first)?;
    cells.push(second)?;
    Ok(())
}

/// Appends an equation.
pub(crate) fn equate(work: &mut Vec<Equation>, left: usize, right: usize) -> Result<(), AllocError>
    ensures { IfOk result (λ _. work.new.items ≡ work.old.items ++ merged.equation left right ∷ []) }
{
    work.push(Equation { left, right })?;
    Ok(())
}
