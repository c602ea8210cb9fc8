//! The least types of solved cells.

ghost use Rattle.std.specs.Prelude.{◌≡◌, ◌+◌, ◌<◌, ◌⊎◌, [], ◌∷◌, ◌++◌, length, slice_get, slice_set, ℕ, Some, IfOk, IfErr, IfSome, IfNone};
ghost use Rattle.type_table.specs.Kinds.{IsGrown};
ghost use Rattle.infer_cells.specs.Cells.{NoSolution, OnNoTyping, ArePlaced};
ghost use Rattle.infer_cells.specs.Walk.{AreNew, NoneIsOpen, AreLeastIds, IsLeastId, IsPart, IsDone, AreDone, MarksMean, IsWalk, Has, IsPartAt, IsReadyAt, walk_load};
ghost use Rattle.infer_cells.specs.declared.walk.Mark.TheVariants as mark;

use crate::cell::Cell;
use crate::refusal::SolveRefusal;
use std::alloc::{AllocError, Global};
use type_table::{TypeId, TypeTable};

/// How far the walk is with a cell.
#[derive(Clone, Copy, Debug, PartialEq, Eq)]
pub(crate) enum Mark {
    New,
    /// The cell is on the path.
    Open,
    Done(TypeId),
}

/// The ids of the cells' least types: a free cell's is the unit type. `NoTyping` comes where a type would be a part of itself.
pub(crate) fn type_cells(
    alloc: Global,
    cells: &[Cell],
    types: &mut TypeTable,
) -> Result<Vec<TypeId>, SolveRefusal>
    requires { ArePlaced cells.now }
    ensures ids { IfOk result (λ ids. AreLeastIds cells.now types.new ids.items) }
    ensures none { IfErr result (λ e. OnNoTyping e (NoSolution cells.now [])) }
    ensures grown { IsGrown types.old types.new }
{
    let mut marks = new_marks(alloc, cells.len())?;
    let mut ids = Vec::with_capacity(alloc, cells.len())?;
    for start in 0..cells.len() {
        let id = match type_of(alloc, cells, start, &mut marks, types) {
            Ok(id) => id,
            Err(refusal) => return Err(refusal),
        };
        append(&mut ids, id)?;
    }
    Ok(ids)
}

/// Appends an id.
fn append(ids: &mut Vec<TypeId>, id: TypeId) -> Result<(), AllocError>
    ensures { IfOk result (λ _. ids.new.items ≡ ids.old.items ++ id ∷ []) }
{
    ids.push(id)?;
    Ok(())
}

/// So many marks, all new.
fn new_marks(alloc: Global, count: usize) -> Result<Vec<Mark>, AllocError>
    ensures { IfOk result (λ marks. (length marks.items ≡ count) × AreNew marks.items) }
{
    let mut marks = Vec::with_capacity(alloc, count)?;
    for _ in 0..count {
        marks.push(Mark::New)?;
    }
    Ok(marks)
}

/// The id of one cell's least type, by a walk along its parts whose path is a list.
fn type_of(
    alloc: Global,
    cells: &[Cell],
    start: usize,
    marks: &mut Vec<Mark>,
    types: &mut TypeTable,
) -> Result<TypeId, SolveRefusal>
    requires placed { ArePlaced cells.now }
    requires within { start < length cells.now }
    requires count { length marks.old.items ≡ length cells.now }
    requires done { MarksMean cells.now types.old marks.old.items }
    requires closed { NoneIsOpen marks.old.items }
    ensures id { IfOk result (λ id. IsLeastId cells.now types.new start id) }
    ensures count { IfOk result (λ _. length marks.new.items ≡ length cells.now) }
    ensures done { IfOk result (λ _. MarksMean cells.now types.new marks.new.items) }
    ensures closed { IfOk result (λ _. NoneIsOpen marks.new.items) }
    ensures none { IfErr result (λ e. OnNoTyping e (NoSolution cells.now [])) }
    ensures grown { IsGrown types.old types.new }
{
    let mut path = Vec::new(alloc);
    path.push(start).map_err(AllocError::from)?;
    while let Some(top) = path.pop() {
        match visit(cells, top, marks, &mut path, types) {
            Ok(()) => {}
            Err(refusal) => return Err(refusal),
        }
    }
    match marks[start] {
        Mark::Done(id) => Ok(id),
        Mark::New => unreachable!(),
        Mark::Open => unreachable!(),
    }
}

/// Goes on from the path's last cell, which was taken off it: to a part that has no id yet, or back once all have theirs.
fn visit(
    cells: &[Cell],
    top: usize,
    marks: &mut Vec<Mark>,
    path: &mut Vec<usize>,
    types: &mut TypeTable,
) -> Result<(), SolveRefusal>
    requires placed { ArePlaced cells.now }
    requires within { top < length cells.now }
    requires walk { IsWalk cells.now types.old marks.old.items (path.old.items ++ top ∷ []) }
    ensures walk { IfOk result (λ _. IsWalk cells.now types.new marks.new.items path.new.items) }
    ensures kept { IfOk result (λ _. (i : ℕ) →
        Has (path.old.items ++ top ∷ []) i ⊎ IsDone marks.old.items i →
        Has path.new.items i ⊎ IsDone marks.new.items i) }
    ensures less { IfOk result (λ _.
        walk_load marks.new.items path.new.items < 1 + walk_load marks.old.items path.old.items) }
    ensures none { IfErr result (λ e. OnNoTyping e (NoSolution cells.now [])) }
    ensures grown { IsGrown types.old types.new }
{
    match next_part(cells[top], marks.as_slice()) {
        Some(part) => match descend(top, part, marks, path) {
            Ok(()) => Ok(()),
            Err(refusal) => Err(refusal),
        },
        None => {
            let id = make(cells, top, marks.as_slice(), types)?;
            marks[top] = Mark::Done(id);
            Ok(())
        }
    }
}

/// Goes on from a cell to a part of it, which must not be on the path already.
fn descend(
    top: usize,
    part: usize,
    marks: &mut Vec<Mark>,
    path: &mut Vec<usize>,
) -> Result<(), SolveRefusal>
    requires within { part < length marks.old.items }
    requires undone { IsDone marks.old.items part → ⊥ }
    ensures none { IfErr result (λ e.
        OnNoTyping e (slice_get marks.old.items part ≡ Some mark.Open)) }
    ensures new { IfOk result (λ _. slice_get marks.old.items part ≡ Some mark.New) }
    ensures marks { IfOk result (λ _. marks.new.items ≡ slice_set marks.old.items part mark.Open) }
    ensures path { IfOk result (λ _. path.new.items ≡ (path.old.items ++ top ∷ []) ++ part ∷ []) }
{
    match marks[part] {
        Mark::Open => Err(SolveRefusal::NoTyping),
        Mark::Done(_) => unreachable!(),
        Mark::New => {
            marks[part] = Mark::Open;
            path.push(top).map_err(AllocError::from)?;
            path.push(part).map_err(AllocError::from)?;
            Ok(())
        }
    }
}

/// The first part of a cell that has no id yet.
fn next_part(cell: Cell, marks: &[Mark]) -> Option<usize>
    requires { (j : ℕ) → IsPart cell j → j < length marks.now }
    ensures part { IfSome result (λ j. IsPart cell j) }
    ensures undone { IfSome result (λ j. IsDone marks.now j → ⊥) }
    ensures done { IfNone result (AreDone marks.now cell) }
{
    match cell {
        Cell::Free => None,
        Cell::One => None,
        Cell::Link(other) => undone(other, marks),
        Cell::Sum(first, second) => first_undone(first, second, marks),
        Cell::Product(first, second) => first_undone(first, second, marks),
    }
}

/// The cell itself where it has no id yet.
fn undone(part: usize, marks: &[Mark]) -> Option<usize>
    requires { part < length marks.now }
    ensures part { IfSome result (λ j. j ≡ part) }
    ensures undone { IfSome result (λ j. IsDone marks.now j → ⊥) }
    ensures done { IfNone result (IsDone marks.now part) }
{
    match marks[part] {
        Mark::Done(_) => None,
        Mark::New => Some(part),
        Mark::Open => Some(part),
    }
}

/// The first of two cells that has no id yet.
fn first_undone(first: usize, second: usize, marks: &[Mark]) -> Option<usize>
    requires first { first < length marks.now }
    requires second { second < length marks.now }
    ensures part { IfSome result (λ j. (j ≡ first) ⊎ (j ≡ second)) }
    ensures undone { IfSome result (λ j. IsDone marks.now j → ⊥) }
    ensures done { IfNone result (IsDone marks.now first × IsDone marks.now second) }
{
    match undone(first, marks) {
        Some(part) => Some(part),
        None => undone(second, marks),
    }
}

/// The id of a cell's least type, from those of its parts.
fn make(
    cells: &[Cell],
    top: usize,
    marks: &[Mark],
    types: &mut TypeTable,
) -> Result<TypeId, AllocError>
    requires within { top < length cells.now }
    requires done { IsReadyAt cells.now marks.now top }
    requires mean { MarksMean cells.now types.old marks.now }
    ensures id { IfOk result (λ id. IsLeastId cells.now types.new top id) }
    ensures grown { IsGrown types.old types.new }
{
    match cells[top] {
        Cell::Free => Ok(types.unit()?),
        Cell::One => Ok(types.unit()?),
        Cell::Link(other) => Ok(id_at(marks, other)),
        Cell::Sum(first, second) => Ok(types.sum(id_at(marks, first), id_at(marks, second))?),
        Cell::Product(first, second) => {
            Ok(types.product(id_at(marks, first), id_at(marks, second))?)
        }
    }
}

/// The id that a cell has.
fn id_at(marks: &[Mark], part: usize) -> TypeId
    requires { IsDone marks.now part }
    ensures { slice_get marks.now part ≡ Some (mark.Done result) }
{
    match marks[part] {
        Mark::Done(id) => id,
        Mark::New => unreachable!(),
        Mark::Open => unreachable!(),
    }
}
