//! Parts of values: sides, items, arguments, numbers.

ghost use Rattle.std.specs.Prelude.{◌≡◌, [], ◌∷◌, IfOk, IsTrue, Some, is_some};
ghost use Rattle.hl_data.specs.declared.value.HlValue.TheViews.{out-HlValue};
ghost use Rattle.hl_data.specs.declared.value.HlValue.TheVariants as value;
ghost use Rattle.hl_meaning.specs.Answer.{known};
ghost use Rattle.hl_meaning.specs.Values.{word_at};
ghost use Rattle.hl_meaning.specs.Loops.{is_counter_width};
ghost use Rattle.hl_meaning.specs.Mean.{asserted, unwrapped, unwrapped_left, unwrapped_right, none_tested, items_in_list, items_in_array, counter_width, parts_of, taken};
ghost use Rattle.hl_eval.specs.Outcome.{AnswersMeaning};

use crate::copy::{copy_value, copy_values};
use crate::fault::EvalFault;
use hl_data::{HlValue, HlValues, TypedSide};
use hl_syntax::{HlType, Wanted};
use std::alloc::{AllocError, Global};
use word_math::Word;

/// The tuple of nothing for true; failure for false.
pub(crate) fn asserted(alloc: Global, value: HlValue) -> Result<HlValue, EvalFault>
    ensures { AnswersMeaning (asserted (out-HlValue value)) result }
{
    match value {
        HlValue::Bool(true) => Ok(HlValue::Tuple(HlValues::new(alloc))),
        HlValue::Bool(false) => Err(EvalFault::Failed),
        _ => Err(EvalFault::NoAnswer),
    }
}

/// The value in a `Some`; failure for `None`.
pub(crate) fn unwrapped(value: HlValue) -> Result<HlValue, EvalFault>
    ensures { AnswersMeaning (unwrapped (out-HlValue value)) result }
{
    match value {
        HlValue::Some(part) => Ok(part.into_inner()),
        HlValue::Nothing => Err(EvalFault::Failed),
        _ => Err(EvalFault::NoAnswer),
    }
}

/// The value in a `Left`; failure for a `Right`.
pub(crate) fn unwrapped_left(value: HlValue) -> Result<HlValue, EvalFault>
    ensures { AnswersMeaning (unwrapped_left (out-HlValue value)) result }
{
    match value {
        HlValue::Left(part) => Ok(part.into_inner()),
        HlValue::Right(_) => Err(EvalFault::Failed),
        _ => Err(EvalFault::NoAnswer),
    }
}

/// The value in a `Right`; failure for a `Left`.
pub(crate) fn unwrapped_right(value: HlValue) -> Result<HlValue, EvalFault>
    ensures { AnswersMeaning (unwrapped_right (out-HlValue value)) result }
{
    match value {
        HlValue::Right(part) => Ok(part.into_inner()),
        HlValue::Left(_) => Err(EvalFault::Failed),
        _ => Err(EvalFault::NoAnswer),
    }
}

/// Whether an option is `None`.
pub(crate) fn none_tested(value: HlValue) -> Result<HlValue, EvalFault>
    ensures { AnswersMeaning (none_tested (out-HlValue value)) result }
{
    match value {
        HlValue::Nothing => Ok(HlValue::Bool(true)),
        HlValue::Some(_) => Ok(HlValue::Bool(false)),
        _ => Err(EvalFault::NoAnswer),
    }
}

/// The items of a list.
pub(crate) fn list_items(value: HlValue) -> Result<HlValues, EvalFault>
    ensures { AnswersMeaning (known (items_in_list (out-HlValue value))) result }
{
    match value {
        HlValue::List(items) => Ok(items),
        _ => Err(EvalFault::NoAnswer),
    }
}

/// The items of an array.
pub(crate) fn array_items(value: HlValue) -> Result<HlValues, EvalFault>
    ensures { AnswersMeaning (known (items_in_array (out-HlValue value))) result }
{
    match value {
        HlValue::Array(items) => Ok(items),
        _ => Err(EvalFault::NoAnswer),
    }
}

/// Whether an arm with a side is for a value.
pub(crate) fn takes(side: &TypedSide, value: &HlValue) -> bool
    ensures { result ≡ is_some (taken side.now (out-HlValue value.now)) }
{
    match side {
        TypedSide::Left(_, _) => matches!(value, HlValue::Left(_)),
        TypedSide::Right(_, _) => matches!(value, HlValue::Right(_)),
        TypedSide::Some(_, _) => matches!(value, HlValue::Some(_)),
        TypedSide::Nothing => matches!(value, HlValue::Nothing),
        TypedSide::True => matches!(value, HlValue::Bool(true)),
        TypedSide::False => matches!(value, HlValue::Bool(false)),
    }
}

/// The width of a loop's counter, the third parameter of its function.
pub(crate) fn counter_width(params: &Wanted) -> Result<u16, EvalFault>
    ensures width { AnswersMeaning (known (counter_width params.now)) result }
    ensures counter { IfOk result (λ width. IsTrue (is_counter_width width)) }
{
    match params.as_slice() {
        [_, _, counter] => match &counter.kind {
            HlType::UInt(width) if matches!(*width, 1 | 2 | 4 | 8 | 16) => Ok(*width),
            _ => Err(EvalFault::NoAnswer),
        },
        _ => Err(EvalFault::NoAnswer),
    }
}

/// A number of a width, where it fits.
pub(crate) fn number(width: u16, number: u32) -> Result<HlValue, EvalFault>
    ensures { AnswersMeaning (known (word_at width number)) result }
{
    match Word::new(width, 0, u128::from(number)) {
        Some(word) => Ok(HlValue::Number(word)),
        None => Err(EvalFault::NoAnswer),
    }
}

/// The list of two values.
pub(crate) fn two(alloc: Global, first: HlValue, second: HlValue) -> Result<HlValues, AllocError>
    ensures { IfOk result (λ values. values ≡ first ∷ second ∷ []) }
{
    let mut values = HlValues::new(alloc);
    values.push(first)?;
    values.push(second)?;
    Ok(values)
}

/// The list of three values.
pub(crate) fn three(
    alloc: Global,
    first: HlValue,
    second: HlValue,
    third: HlValue,
) -> Result<HlValues, AllocError>
    ensures { IfOk result (λ values. values ≡ first ∷ second ∷ third ∷ []) }
{
    let mut values = two(alloc, first, second)?;
    values.push(third)?;
    Ok(values)
}

/// The values of the parameters in one argument: the value itself for one, else the parts of a tuple.
pub(crate) fn argument_parts(
    alloc: Global,
    params: &Wanted,
    argument: &HlValue,
) -> Result<HlValues, EvalFault>
    ensures { AnswersMeaning (known (parts_of params.now argument.now)) result }
{
    match params.as_slice() {
        [_] => {
            let mut parts = HlValues::new(alloc);
            parts.push(copy_value(alloc, argument)?)?;
            Ok(parts)
        }
        _ => match argument {
            HlValue::Tuple(parts) => Ok(copy_values(alloc, parts)?),
            _ => Err(EvalFault::NoAnswer),
        },
    }
}
