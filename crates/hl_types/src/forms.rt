//! Forms of options, arrays, tuples and lists: the core types that they are encoded in.

ghost use Rattle.std.specs.Prelude.{◌≡◌, ℕ, ◌<◌, length, map, IfOk};
ghost use Rattle.hl_types.specs.Ids.{AreBelow};
ghost use Rattle.simplicity.specs.Tuples.{copies_kind, tuple_kind};
ghost use Rattle.simplicity.specs.Types.{One, Sum};
ghost use Rattle.simplicityhl.specs.Kinds.{list_kind};
ghost use Rattle.type_table.specs.Kinds.{Means, kind_at, IsGrown, IsDistinct};

use std::alloc::AllocError;
use type_table::{TypeId, TypeTable};

/// The form of an option of an item.
pub(crate) fn option_form(types: &mut TypeTable, item: TypeId) -> Result<TypeId, AllocError>
    requires { item < length types.old }
    ensures ok { IfOk result (λ id. Means types.new id (Sum One (kind_at types.old item))) }
    ensures grown { IsGrown types.old types.new }
    ensures distinct { IsDistinct types.new }
{
    let unit = types.unit()?;
    Ok(types.sum(unit, item)?)
}

/// The form of so many items, by halves.
pub(crate) fn copies_form(
    types: &mut TypeTable,
    item: TypeId,
    count: u32,
) -> Result<TypeId, AllocError>
    requires there { item < length types.old }
    requires distinct { IsDistinct types.old }
    ensures ok { IfOk result (λ id. Means types.new id (copies_kind count (kind_at types.old item))) }
    ensures grown { IsGrown types.old types.new }
    ensures distinct { IsDistinct types.new }
{
    if count == 0 {
        return Ok(types.unit()?);
    }
    if count == 1 {
        return Ok(item);
    }
    let half = count / 2;
    let first = copies_form(types, item, half)?;
    if count % 2 == 0 {
        return Ok(types.product(first, first)?);
    }
    let rest = copies_form(types, item, count - half)?;
    Ok(types.product(first, rest)?)
}

/// The form of a tuple of parts, by halves.
pub(crate) fn tuple_form(types: &mut TypeTable, parts: &[TypeId]) -> Result<TypeId, AllocError>
    requires there { AreBelow (length types.old) parts.now }
    requires distinct { 0 < length parts.now → IsDistinct types.old }
    ensures ok { IfOk result (λ id. Means types.new id (tuple_kind (map (kind_at types.old) parts.now))) }
    ensures grown { IsGrown types.old types.new }
    ensures distinct { IsDistinct types.new }
{
    if parts.len() == 0 {
        return Ok(types.unit()?);
    }
    if parts.len() == 1 {
        return Ok(parts[0]);
    }
    let (front, back) = parts.split_at(parts.len() / 2);
    let first = tuple_form(types, front)?;
    let rest = tuple_form(types, back)?;
    Ok(types.product(first, rest)?)
}

/// The form of lists of a level, whose bound is 2 ^ (level + 1).
pub(crate) fn list_form(
    types: &mut TypeTable,
    item: TypeId,
    level: u32,
) -> Result<TypeId, AllocError>
    requires there { item < length types.old }
    requires few { level < 16 }
    ensures ok { IfOk result (λ id. Means types.new id (list_kind level (kind_at types.old item))) }
    ensures grown { IsGrown types.old types.new }
    ensures distinct { IsDistinct types.new }
{
    if level == 0 {
        return Ok(option_form(types, item)?);
    }
    let rest = list_form(types, item, level - 1)?;
    let length = 1 << level;
    let block = copies_form(types, item, length)?;
    let choice = option_form(types, block)?;
    Ok(types.product(choice, rest)?)
}
