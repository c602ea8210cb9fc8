//! What a form does with the values of its parts.

ghost use Rattle.hl_data.specs.declared.value.HlValue.TheViews.{out-HlValue};
ghost use Rattle.hl_meaning.specs.Answer.{known};
ghost use Rattle.hl_eval.specs.Outcome.{AnswersMeaning};
ghost use Rattle.hl_eval.specs.Uses.{items_in, use_of};

use crate::fault::EvalFault;
use crate::values::{
    array_items, asserted, list_items, none_tested, unwrapped, unwrapped_left, unwrapped_right,
};
use hl_data::{HlValue, HlValues};
use lists::{Boxed, Text};
use std::alloc::Global;

/// What an expression does with the value of its only part.
#[derive(Clone, Copy)]
pub(crate) enum Use {
    Assert,
    Dbg,
    Unwrap,
    UnwrapLeft,
    UnwrapRight,
    IsNone,
    Left,
    Right,
    Some,
}

/// What an expression does with the values of its parts.
#[derive(Clone, Copy)]
pub(crate) enum Gathering<'a> {
    Tuple,
    Array,
    List,
    Jet(&'a Text),
    Call(&'a Text),
}

/// Whose items a loop goes over.
#[derive(Clone, Copy)]
pub(crate) enum Items {
    List,
    Array,
}

/// What comes of a value in a use.
pub(crate) fn used(alloc: Global, how: Use, value: HlValue) -> Result<HlValue, EvalFault>
    ensures { AnswersMeaning (use_of how value) result }
{
    match how {
        Use::Assert => asserted(alloc, value),
        Use::Dbg => Ok(value),
        Use::Unwrap => unwrapped(value),
        Use::UnwrapLeft => unwrapped_left(value),
        Use::UnwrapRight => unwrapped_right(value),
        Use::IsNone => none_tested(value),
        Use::Left => Ok(HlValue::Left(Boxed::new(alloc, value)?)),
        Use::Right => Ok(HlValue::Right(Boxed::new(alloc, value)?)),
        Use::Some => Ok(HlValue::Some(Boxed::new(alloc, value)?)),
    }
}

/// The items of a value that a loop goes over.
pub(crate) fn loop_items(from: Items, value: HlValue) -> Result<HlValues, EvalFault>
    ensures { AnswersMeaning (known (items_in from (out-HlValue value))) result }
{
    match from {
        Items::List => list_items(value),
        Items::Array => array_items(value),
    }
}
