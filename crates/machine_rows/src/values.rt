//! The cells of small values.

use core_data::CoreValue;
use frame_stack::Cell;
use std::test::Fail;
use type_table::TypeTable;
use value_cells::write_cells;

#[test]
fn a_left_unit_beside_a_bit_has_a_blank(rt: HostRuntime) -> Result<(), Fail> {
    let mut types = TypeTable::new(rt.alloc());
    let unit = types.unit()?;
    let bit = types.sum(unit, unit)?;
    let either = types.sum(unit, bit)?;
    let value = CoreValue::Left(Box::new(rt.alloc(), CoreValue::Unit)?);
    let mut cells = Vec::new(rt.alloc());
    write_cells(rt.alloc(), &value, either, &types, &mut cells)?;
    let want = [Cell::Zero, Cell::Undefined];
    assert_eq!(rt; cells.as_slice(), want.as_slice());
    Ok(())
}
