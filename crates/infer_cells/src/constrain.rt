//! From a list of nodes to solved cells.

ghost use Rattle.std.specs.Prelude.{◌≡◌, ◌+◌, ◌<◌, ◌∷◌, ◌++◌, [], length, IfOk, IfErr};
ghost use Rattle.simplicity.specs.Nodes.{HasRoot};
ghost use Rattle.simplicity.specs.Typing.{HasNoTyping};
ghost use Rattle.infer_cells.specs.Cells.{OnNoTyping};
ghost use Rattle.infer_cells.specs.Constrained.{arrow_between, AreConstrained, IsRowCell, AreRowCells, root_equations};

use crate::cell::{Cell, Equation, Place};
use crate::emit::{emit, equate};
use crate::refusal::SolveRefusal;
use crate::unify::solve;
use std::alloc::{AllocError, Global};
use term_core::NodeList;
use type_table::{Shape, TypeId, TypeTable};

/// The most cells that are made for a node.
const MOST_CELLS: usize = 7;

/// Solved cells, and where among them the nodes' arrows are.
#[derive(Drop)]
pub(crate) struct Constraints {
    pub cells: Vec<Cell>,
    pub places: Vec<Option<Place>>,
}

/// The solved cells of a list with an arrow at its root. Each node's equations are solved before the next node's are made.
pub(crate) fn constrain(
    alloc: Global,
    nodes: &NodeList,
    source: TypeId,
    target: TypeId,
    types: &TypeTable,
) -> Result<Constraints, SolveRefusal>
    requires rooted { HasRoot nodes.now }
    requires source { source < length types.now }
    requires target { target < length types.now }
    ensures ok { IfOk result (λ all.
        AreConstrained nodes.now (arrow_between types.now source target) all.cells.items all.places.items) }
    ensures none { IfErr result (λ e.
        OnNoTyping e (HasNoTyping nodes.now (arrow_between types.now source target))) }
{
    let room = nodes.len().saturating_mul(MOST_CELLS);
    let mut cells = row_cells(alloc, types, source.max(target), room)?;
    let mut work = Vec::new(alloc);
    let mut places = Vec::with_capacity(alloc, nodes.len())?;
    for node in nodes.as_slice() {
        let place = emit(node, places.as_slice(), &mut cells, &mut work)?;
        match solve(&mut cells, &mut work) {
            Ok(()) => {}
            Err(refusal) => return Err(refusal),
        }
        append(&mut places, place)?;
    }
    tie(places.as_slice(), source, target, &mut work)?;
    match solve(&mut cells, &mut work) {
        Ok(()) => Ok(Constraints { cells, places }),
        Err(refusal) => Err(refusal),
    }
}

/// The cells of the rows of a table of types up to one, with room for so many cells from the start.
fn row_cells(
    alloc: Global,
    types: &TypeTable,
    last: TypeId,
    room: usize,
) -> Result<Vec<Cell>, AllocError>
    requires { last < length types.now }
    ensures rows { IfOk result (λ cells. AreRowCells types.now cells.items) }
    ensures count { IfOk result (λ cells. length cells.items ≡ last + 1) }
{
    let mut cells = Vec::with_capacity(alloc, room)?;
    for id in 0..last {
        cells.push(row_cell(types, id))?;
    }
    cells.push(row_cell(types, last))?;
    Ok(cells)
}

/// The cell of a row.
fn row_cell(types: &TypeTable, id: TypeId) -> Cell
    requires { id < length types.now }
    ensures { IsRowCell types.now id result }
{
    match types.shape(id) {
        Shape::One => Cell::One,
        Shape::Sum(left, right) => Cell::Sum(left, right),
        Shape::Product(left, right) => Cell::Product(left, right),
    }
}

/// Leaves the equations of the root's arrow.
fn tie(
    places: &[Option<Place>],
    source: TypeId,
    target: TypeId,
    work: &mut Vec<Equation>,
) -> Result<(), AllocError>
    ensures { IfOk result (λ _. work.new.items ≡ work.old.items ++ root_equations places.now source target) }
{
    match places.last() {
        Some(Some(root)) => {
            equate(work, root.source, source)?;
            equate(work, root.target, target)?;
            Ok(())
        }
        Some(None) => Ok(()),
        None => Ok(()),
    }
}

/// Appends a place.
fn append(places: &mut Vec<Option<Place>>, place: Option<Place>) -> Result<(), AllocError>
    ensures { IfOk result (λ _. places.new.items ≡ places.old.items ++ place ∷ []) }
{
    places.push(place)?;
    Ok(())
}
