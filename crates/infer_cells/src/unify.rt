//! The unifier.

ghost use Rattle.std.specs.Prelude.{◌≡◌, ◌+◌, ◌<◌, [], ◌∷◌, ◌++◌, length, slice_get, true, Some, None, IfOk, IfErr};
ghost use Rattle.infer_cells.specs.Cells.{Assignment, Solution, SameSolutions, NoSolution, OnNoTyping, ArePlaced, AreWithin, FitFrom, is_root, load, RootPair};
ghost use Rattle.infer_cells.specs.Merged.{equation, merged, merged_parts};

use crate::cell::{Cell, Equation};
use crate::refusal::SolveRefusal;
use std::alloc::AllocError;

/// Solves equations: the cells then have the solutions that they had with the equations. `NoTyping` comes where there is none.
pub(crate) fn solve(cells: &mut Vec<Cell>, work: &mut Vec<Equation>) -> Result<(), SolveRefusal>
    requires placed { ArePlaced cells.old.items }
    requires within { AreWithin (length cells.old.items) work.old.items }
    ensures same { IfOk result (λ _. SameSolutions cells.old.items work.old.items cells.new.items []) }
    ensures done { IfOk result (λ _. work.new.items ≡ []) }
    ensures placed { IfOk result (λ _. ArePlaced cells.new.items) }
    ensures length { IfOk result (λ _. length cells.new.items ≡ length cells.old.items) }
    ensures none { IfErr result (λ e. OnNoTyping e (NoSolution cells.old.items work.old.items)) }
{
    while let Some(equation) = work.pop() {
        match step(cells, work, equation) {
            Ok(()) => {}
            Err(refusal) => return Err(refusal),
        }
    }
    Ok(())
}

/// Solves one equation, which may leave those of the parts.
fn step(
    cells: &mut Vec<Cell>,
    work: &mut Vec<Equation>,
    equation: Equation,
) -> Result<(), SolveRefusal>
    requires placed { ArePlaced cells.old.items }
    requires within { AreWithin (length cells.old.items) (equation ∷ work.old.items) }
    ensures same { IfOk result (λ _.
        SameSolutions cells.old.items (equation ∷ work.old.items) cells.new.items work.new.items) }
    ensures placed { IfOk result (λ _. ArePlaced cells.new.items) }
    ensures within { IfOk result (λ _. AreWithin (length cells.new.items) work.new.items) }
    ensures length { IfOk result (λ _. length cells.new.items ≡ length cells.old.items) }
    ensures less { IfOk result (λ _.
        load cells.new.items work.new.items < 1 + load cells.old.items work.old.items) }
    ensures none { IfErr result (λ e.
        OnNoTyping e (NoSolution cells.old.items (equation ∷ work.old.items))) }
{
    let left = find(cells.as_slice(), equation.left);
    let right = find(cells.as_slice(), equation.right);
    if left.at < right.at {
        link(cells, work, left, right)
    } else if right.at < left.at {
        link(cells, work, right, left)
    } else {
        Ok(())
    }
}

/// A cell that links to no other, and what it holds.
#[derive(Clone, Copy)]
struct Found {
    at: usize,
    cell: Cell,
}

/// The cell at the end of the links from a cell.
fn find(cells: &[Cell], start: usize) -> Found
    requires placed { ArePlaced cells.now }
    requires within { start < length cells.now }
    ensures there { slice_get cells.now result.at ≡ Some result.cell }
    ensures root { is_root result.cell ≡ true }
    ensures same { (f : Assignment) → FitFrom f 0 cells.now → f result.at ≡ f start }
{
    let mut at = start;
    'links: loop {
        let cell = cells[at];
        let Cell::Link(next) = cell else {
            return Found { at, cell };
        };
        at = next;
    }
}

/// Links a cell to one of a lower number, which takes what both hold.
fn link(
    cells: &mut Vec<Cell>,
    work: &mut Vec<Equation>,
    low: Found,
    high: Found,
) -> Result<(), SolveRefusal>
    requires placed { ArePlaced cells.old.items }
    requires pair { RootPair cells.old.items low.at high.at low.cell high.cell }
    requires within { AreWithin (length cells.old.items) work.old.items }
    ensures same { IfOk result (λ _.
        SameSolutions cells.old.items (equation low.at high.at ∷ work.old.items) cells.new.items work.new.items) }
    ensures placed { IfOk result (λ _. ArePlaced cells.new.items) }
    ensures within { IfOk result (λ _. AreWithin (length cells.new.items) work.new.items) }
    ensures length { IfOk result (λ _. length cells.new.items ≡ length cells.old.items) }
    ensures less { IfOk result (λ _.
        load cells.new.items work.new.items < 1 + load cells.old.items work.old.items) }
    ensures none { IfErr result (λ e.
        OnNoTyping e (NoSolution cells.old.items (equation low.at high.at ∷ work.old.items))) }
{
    let content = match merge(low.cell, high.cell, work) {
        Ok(content) => content,
        Err(refusal) => return Err(refusal),
    };
    cells[low.at] = content;
    cells[high.at] = Cell::Link(low.at);
    Ok(())
}

/// What two cells hold once they are one, where that is possible; the parts are left to be made one too.
fn merge(low: Cell, high: Cell, work: &mut Vec<Equation>) -> Result<Cell, SolveRefusal>
    requires low { is_root low ≡ true }
    requires high { is_root high ≡ true }
    ensures content { IfOk result (λ content. merged low high ≡ Some content) }
    ensures parts { IfOk result (λ _. work.new.items ≡ work.old.items ++ merged_parts low high) }
    ensures none { IfErr result (λ e. OnNoTyping e (merged low high ≡ None)) }
{
    match low {
        Cell::Free => Ok(high),
        Cell::Link(_) => unreachable!(),
        Cell::One => match high {
            Cell::Free => Ok(low),
            Cell::One => Ok(low),
            Cell::Link(_) => unreachable!(),
            Cell::Sum(_, _) => Err(SolveRefusal::NoTyping),
            Cell::Product(_, _) => Err(SolveRefusal::NoTyping),
        },
        Cell::Sum(first, second) => match high {
            Cell::Free => Ok(low),
            Cell::Sum(left, right) => {
                compare_parts(work, first, second, left, right)?;
                Ok(low)
            }
            Cell::Link(_) => unreachable!(),
            Cell::One => Err(SolveRefusal::NoTyping),
            Cell::Product(_, _) => Err(SolveRefusal::NoTyping),
        },
        Cell::Product(first, second) => match high {
            Cell::Free => Ok(low),
            Cell::Product(left, right) => {
                compare_parts(work, first, second, left, right)?;
                Ok(low)
            }
            Cell::Link(_) => unreachable!(),
            Cell::One => Err(SolveRefusal::NoTyping),
            Cell::Sum(_, _) => Err(SolveRefusal::NoTyping),
        },
    }
}

/// Leaves the equations of two parts each.
fn compare_parts(
    work: &mut Vec<Equation>,
    first: usize,
    second: usize,
    left: usize,
    right: usize,
) -> Result<(), AllocError>
    ensures { IfOk result (λ _. work.new.items ≡ work.old.items
        ++ (equation first left ∷ equation second right ∷ [])) }
{
    work.push(Equation {
        left: first,
        right: left,
    })?;
    work.push(Equation {
        left: second,
        right,
    })?;
    Ok(())
}
