//! Core values put together.

ghost use Rattle.std.specs.Prelude.{◌≡◌, ℕ, ◌-◌, ◌<◌, ◌≤◌, ◌+◌, ◌^◌, List, [], ◌∷◌, ◌++◌, length, Some, IfOk, IsSome};
ghost use Rattle.core_data.specs.Data.{value_of, values_of};
ghost use Rattle.core_data.specs.declared.data.CoreValue.{CoreValue};
ghost use Rattle.hl_meaning.specs.Values.{list_value};
ghost use Rattle.hl_values.specs.Last.{TakesLast};
ghost use Rattle.simplicity.specs.Tuples.{tuple_value};
ghost use Rattle.simplicity.specs.Types as core;

use core_data::CoreValue;
use std::alloc::{AllocError, Global};

pub(crate) fn left(alloc: Global, value: CoreValue) -> Result<CoreValue, AllocError>
    ensures { IfOk result (λ made. value_of made ≡ core.Inl (value_of value)) }
{
    Ok(CoreValue::Left(Box::new(alloc, value)?))
}

pub(crate) fn right(alloc: Global, value: CoreValue) -> Result<CoreValue, AllocError>
    ensures { IfOk result (λ made. value_of made ≡ core.Inr (value_of value)) }
{
    Ok(CoreValue::Right(Box::new(alloc, value)?))
}

pub(crate) fn bit(alloc: Global, bit: bool) -> Result<CoreValue, AllocError>
    ensures { IfOk result (λ made. value_of made ≡ core.bit_value bit) }
{
    if bit {
        Ok(right(alloc, CoreValue::Unit)?)
    } else {
        Ok(left(alloc, CoreValue::Unit)?)
    }
}

fn pair(alloc: Global, first: CoreValue, second: CoreValue) -> Result<CoreValue, AllocError>
    ensures { IfOk result (λ made. value_of made ≡ core.Pair (value_of first) (value_of second)) }
{
    let first = Box::new(alloc, first)?;
    let second = Box::new(alloc, second)?;
    Ok(CoreValue::Pair(first, second))
}

/// The last value, which is taken.
fn last(values: &mut Vec<CoreValue>) -> CoreValue
    requires { 0 < length values.old.items }
    ensures { values.old.items ≡ values.new.items ++ result ∷ [] }
{
    match values.pop() {
        Some(value) => value,
        None => unreachable!(),
    }
}

/// The tuple by halves of so many of the last values, which are taken.
pub(crate) fn tuple_of_last(
    alloc: Global,
    values: &mut Vec<CoreValue>,
    count: usize,
) -> Result<CoreValue, AllocError>
    requires { count ≤ length values.old.items }
    ensures { IfOk result
        (TakesLast values.old.items values.new.items count (λ vs. Some (tuple_value vs))) }
{
    if count == 0 {
        return Ok(CoreValue::Unit);
    }
    if count == 1 {
        return Ok(last(values));
    }
    let half = count / 2;
    let rest = tuple_of_last(alloc, values, count - half)?;
    let first = tuple_of_last(alloc, values, half)?;
    Ok(pair(alloc, first, rest)?)
}

/// The list at a level of so many of the last values, which are taken.
pub(crate) fn list_of_last(
    alloc: Global,
    values: &mut Vec<CoreValue>,
    count: usize,
    level: u32,
) -> Result<CoreValue, AllocError>
    requires there { count ≤ length values.old.items }
    requires few { count < 2 ^ (level + 1) }
    requires low { level < 16 }
    ensures { IfOk result (TakesLast values.old.items values.new.items count (list_value level)) }
{
    if level == 0 {
        if count == 0 {
            return Ok(left(alloc, CoreValue::Unit)?);
        }
        let item = last(values);
        return Ok(right(alloc, item)?);
    }
    let block = 1 << level;
    if count < block {
        let rest = list_of_last(alloc, values, count, level - 1)?;
        let none = left(alloc, CoreValue::Unit)?;
        return Ok(pair(alloc, none, rest)?);
    }
    let rest = list_of_last(alloc, values, count - block, level - 1)?;
    let items = tuple_of_last(alloc, values, block)?;
    let first = right(alloc, items)?;
    Ok(pair(alloc, first, rest)?)
}
