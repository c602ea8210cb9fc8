//! Copies of values.

ghost use Rattle.std.specs.Prelude.{◌≡◌, IfOk};

use hl_data::{HlValue, HlValues};
use lists::Boxed;
use std::alloc::{AllocError, Global};

/// A copy of a value.
#[cycle(copies)]
pub(crate) fn copy_value(alloc: Global, value: &HlValue) -> Result<HlValue, AllocError>
    ensures { IfOk result (λ copy. copy ≡ value.now) }
{
    match value {
        HlValue::Bool(b) => Ok(HlValue::Bool(*b)),
        HlValue::Number(word) => Ok(HlValue::Number(*word)),
        HlValue::Tuple(parts) => Ok(HlValue::Tuple(copy_values(alloc, parts)?)),
        HlValue::Array(items) => Ok(HlValue::Array(copy_values(alloc, items)?)),
        HlValue::List(items) => Ok(HlValue::List(copy_values(alloc, items)?)),
        HlValue::Nothing => Ok(HlValue::Nothing),
        HlValue::Some(part) => Ok(HlValue::Some(copy_boxed(alloc, part)?)),
        HlValue::Left(part) => Ok(HlValue::Left(copy_boxed(alloc, part)?)),
        HlValue::Right(part) => Ok(HlValue::Right(copy_boxed(alloc, part)?)),
    }
}

/// A copy of each value of a list.
#[cycle(copies)]
pub(crate) fn copy_values(alloc: Global, values: &HlValues) -> Result<HlValues, AllocError>
    ensures { IfOk result (λ copies. copies ≡ values.now) }
{
    let mut copies = HlValues::new(alloc);
    'items: for value in values.as_slice() {
        copies.push(copy_value(alloc, value)?)?;
    }
    Ok(copies)
}

/// A copy of a boxed value.
#[cycle(copies)]
fn copy_boxed(alloc: Global, value: &Boxed<HlValue>) -> Result<Boxed<HlValue>, AllocError>
    ensures { IfOk result (λ copy. copy ≡ value.now) }
{
    Ok(Boxed::new(alloc, copy_value(alloc, value.get())?)?)
}
