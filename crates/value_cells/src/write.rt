//! From a value to its cells.

ghost use Rattle.std.specs.Prelude.{◌≡◌, ◌+◌, ◌<◌, ◌≤◌, ◌∷◌, ◌++◌, length, IfOk};
ghost use Rattle.core_data.specs.Data.{value_of};
ghost use Rattle.core_data.specs.Loads.{load};
ghost use Rattle.frame_stack.specs.Bits.{cell_of, cells_of};
ghost use Rattle.simplicity.specs.Cells as spec;
ghost use Rattle.simplicity.specs.Limits.{most_weight};
ghost use Rattle.simplicity.specs.Types.{IsOf, weight};
ghost use Rattle.type_table.specs.Kinds.{kind_at};
ghost use Rattle.value_cells.specs.Parts.{part_cells, cells_left, load_left, IsPart, AreParts};

use core_data::CoreValue;
use cost_bound::pads;
use frame_stack::Cell;
use std::alloc::{AllocError, Global};
use type_table::{Shape, TypeId, TypeTable};

/// A part of a value, with its type.
#[derive(Clone, Copy)]
pub(crate) struct Part<'a> {
    pub value: &'a CoreValue,
    pub kind: TypeId,
}

/// Appends the cells of a value of a type. After an error some of them may stand there. A list of the parts that are
/// left is kept, so a deep value takes no stack.
pub fn write_cells(
    alloc: Global,
    value: &CoreValue,
    kind: TypeId,
    types: &TypeTable,
    cells: &mut Vec<Cell>,
) -> Result<(), AllocError>
    requires there { kind < length types.now }
    requires light { weight (kind_at types.now kind) ≤ most_weight }
    requires typed { IsOf (value_of value.now) (kind_at types.now kind) }
    ensures { IfOk result (λ _. cells_of cells.new.items
        ≡ cells_of cells.old.items ++ spec.cells (kind_at types.now kind) (value_of value.now)) }
{
    let mut parts = Vec::new(alloc);
    parts.push(Part { value, kind })?;
    while let Some(part) = parts.pop() {
        write_part(part, types, &mut parts, cells)?;
    }
    Ok(())
}

/// Writes the tag of a part, and leaves what it is made of.
fn write_part<'a>(
    part: Part<'a>,
    types: &TypeTable,
    parts: &mut Vec<Part<'a>>,
    cells: &mut Vec<Cell>,
) -> Result<(), AllocError>
    requires part { IsPart types.now part }
    requires parts { AreParts types.now parts.old.items }
    ensures cells { IfOk result (λ _. cells_of cells.new.items ++ cells_left types.now parts.new.items
        ≡ cells_of cells.old.items ++ (part_cells types.now part.entry ++ cells_left types.now parts.old.items)) }
    ensures parts { IfOk result (λ _. AreParts types.now parts.new.items) }
    ensures less { IfOk result (λ _.
        load_left parts.new.items < load (value_of part.entry.value.now) + load_left parts.old.items) }
{
    match types.shape(part.kind) {
        Shape::One => {}
        Shape::Sum(left, right) => match part.value {
            CoreValue::Left(inner) => {
                write_tag(cells, Cell::Zero, pads(left, right, types).0)?;
                parts.push(Part {
                    value: inner,
                    kind: left,
                })?;
            }
            CoreValue::Right(inner) => {
                write_tag(cells, Cell::One, pads(left, right, types).1)?;
                parts.push(Part {
                    value: inner,
                    kind: right,
                })?;
            }
            CoreValue::Unit => unreachable!(),
            CoreValue::Pair(_, _) => unreachable!(),
        },
        Shape::Product(left, right) => match part.value {
            CoreValue::Pair(first, second) => {
                parts.push(Part {
                    value: second,
                    kind: right,
                })?;
                parts.push(Part {
                    value: first,
                    kind: left,
                })?;
            }
            CoreValue::Unit => unreachable!(),
            CoreValue::Left(_) => unreachable!(),
            CoreValue::Right(_) => unreachable!(),
        },
    }
    Ok(())
}

/// Writes a tag, and leaves the cells after it undefined that its side doesn't take.
fn write_tag(cells: &mut Vec<Cell>, tag: Cell, padding: u64) -> Result<(), AllocError>
    ensures { IfOk result (λ _. cells_of cells.new.items
        ≡ cells_of cells.old.items ++ (cell_of tag ∷ spec.undefined padding)) }
{
    cells.push(tag)?;
    for _done in 0..padding {
        cells.push(Cell::Undefined)?;
    }
    Ok(())
}
