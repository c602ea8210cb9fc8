//! Core values as source values.

ghost use Rattle.std.specs.Prelude.{◌≡◌, ℕ, ◌<◌, length, map, Some, IfOk, IsTrue};
ghost use Rattle.std.specs.List.{list_all, All};
ghost use Rattle.core_data.specs.Data.{value_of};
ghost use Rattle.hl_meaning.specs.Values.{at_all, at_each, encoded, decoded, is_number_of};
ghost use Rattle.hl_values.specs.Leaves.{lent, IsList, IsTuple, PushesItems, PushesParts};
ghost use Rattle.simplicityhl.specs.Kinds.{is_sound};
ghost use Rattle.simplicity.specs.Types as core;
ghost use Rattle.simplicity.specs.Types.{AreOf, IsOf};
ghost use Rattle.simplicity.specs.Widths.{level_of, word_of_width};
ghost use Rattle.simplicityhl.specs.Kinds.{form, is_width, IsSound};

use crate::encode::list_level;
use core_data::CoreValue;
use hl_data::{HlValue, HlValues};
use hl_syntax::{HlType, HlTypes};
use lists::Boxed;
use std::alloc::{AllocError, Global};
use word_math::Word;

/// Puts the parts of a tuple by halves, of which there are so many, at the end.
fn push_parts<'a>(
    leaves: &mut Vec<&'a CoreValue>,
    tuple: &'a CoreValue,
    count: usize,
) -> Result<(), AllocError>
    requires { IsTuple count (value_of tuple.now) }
    ensures { IfOk result (λ _. PushesParts leaves.old.items leaves.new.items count (value_of tuple.now)) }
{
    if count == 0 {
        return Ok(());
    }
    if count == 1 {
        leaves.push(tuple)?;
        return Ok(());
    }
    match tuple {
        CoreValue::Pair(first, rest) => {
            push_parts(leaves, first, count / 2)?;
            Ok(push_parts(leaves, rest, count - count / 2)?)
        }
        CoreValue::Unit => unreachable!(),
        CoreValue::Left(_) => unreachable!(),
        CoreValue::Right(_) => unreachable!(),
    }
}

/// Puts the items of a list at a level at the end.
fn push_items<'a>(
    leaves: &mut Vec<&'a CoreValue>,
    list: &'a CoreValue,
    level: u32,
) -> Result<(), AllocError>
    requires list { IsList level (value_of list.now) }
    requires low { level < 16 }
    ensures { IfOk result (λ _. PushesItems leaves.old.items leaves.new.items level (value_of list.now)) }
{
    match list {
        CoreValue::Left(_) => Ok(()),
        CoreValue::Right(item) => {
            leaves.push(item)?;
            Ok(())
        }
        CoreValue::Pair(choice, rest) => {
            if let CoreValue::Right(block) = &**choice {
                push_parts(leaves, block, 1 << level)?;
                return Ok(push_items(leaves, rest, level - 1)?);
            }
            Ok(push_items(leaves, rest, level - 1)?)
        }
        CoreValue::Unit => unreachable!(),
    }
}

/// The truth value that a bit is.
fn truth(bit: &CoreValue) -> bool
    requires { IsOf (value_of bit.now) (core.Sum core.One core.One) }
    ensures { value_of bit.now ≡ core.bit_value result }
{
    match bit {
        CoreValue::Left(_) => false,
        CoreValue::Right(_) => true,
        CoreValue::Unit => unreachable!(),
        CoreValue::Pair(_, _) => unreachable!(),
    }
}

/// The word of a width that a core value is.
fn word_of(value: &CoreValue, width: u16) -> Word
    requires sound { IsTrue (is_width width) }
    requires of_width { IsOf (value_of value.now) (word_of_width width) }
    ensures value { value_of value.now ≡ core.word_value (level_of width) result.number }
    ensures width { IsTrue (is_number_of width result) }
{
    let Some(word) = Word::from_value(value) else {
        unreachable!()
    };
    let _width = word.width();
    word
}

/// Each core value at the type at its place.
#[cycle(decode)]
pub(crate) fn decode_parts(
    alloc: Global,
    leaves: &[&CoreValue],
    kinds: &HlTypes,
) -> Result<HlValues, AllocError>
    requires sound { IsTrue (list_all (λ kind. kind) (map is_sound kinds.now)) }
    requires are_of { AreOf (lent leaves.now) (map form kinds.now) }
    ensures { IfOk result (λ values. at_each (map encoded values) kinds.now ≡ Some (lent leaves.now)) }
{
    let mut values = HlValues::new(alloc);
    'kinds: for (place, kind) in kinds.as_slice().iter().enumerate() {
        let value = decode(alloc, leaves[place], kind)?;
        values.push(value)?;
    }
    Ok(values)
}

/// Each core value at one type.
#[cycle(decode)]
pub(crate) fn decode_items(
    alloc: Global,
    leaves: &[&CoreValue],
    kind: &HlType,
) -> Result<HlValues, AllocError>
    requires sound { IsSound kind.now }
    requires are_of { All (λ v. IsOf v (form kind.now)) (lent leaves.now) }
    ensures { IfOk result (λ values. at_all (map encoded values) kind.now ≡ Some (lent leaves.now)) }
{
    let mut values = HlValues::new(alloc);
    'leaves: for leaf in leaves {
        let value = decode(alloc, leaf, kind)?;
        values.push(value)?;
    }
    Ok(values)
}

/// The value of the type that is encoded in a core value.
#[cycle(decode)]
pub(crate) fn decode(alloc: Global, value: &CoreValue, kind: &HlType) -> Result<HlValue, AllocError>
    requires sound { IsSound kind.now }
    requires of_form { IsOf (value_of value.now) (form kind.now) }
    ensures { IfOk result (λ found. encoded found kind.now ≡ Some (value_of value.now)) }
{
    match kind {
        HlType::Bool => Ok(HlValue::Bool(truth(value))),
        HlType::UInt(width) => Ok(HlValue::Number(word_of(value, *width))),
        HlType::Tuple(kinds) => {
            let mut leaves = Vec::new(alloc);
            push_parts(&mut leaves, value, kinds.len())?;
            Ok(HlValue::Tuple(decode_parts(alloc, leaves.as_slice(), kinds)?))
        }
        HlType::Array(item, count) => {
            let mut leaves = Vec::new(alloc);
            push_parts(&mut leaves, value, *count as usize)?;
            Ok(HlValue::Array(decode_items(alloc, leaves.as_slice(), item.get())?))
        }
        HlType::List(item, bound) => {
            let mut leaves = Vec::new(alloc);
            push_items(&mut leaves, value, list_level(*bound))?;
            Ok(HlValue::List(decode_items(alloc, leaves.as_slice(), item.get())?))
        }
        HlType::Option(item) => match value {
            CoreValue::Left(_) => Ok(HlValue::Nothing),
            CoreValue::Right(part) => {
                let part = decode(alloc, part, item.get())?;
                Ok(HlValue::Some(Boxed::new(alloc, part)?))
            }
            CoreValue::Unit => unreachable!(),
            CoreValue::Pair(_, _) => unreachable!(),
        },
        HlType::Either(first, second) => match value {
            CoreValue::Left(part) => {
                let part = decode(alloc, part, first.get())?;
                Ok(HlValue::Left(Boxed::new(alloc, part)?))
            }
            CoreValue::Right(part) => {
                let part = decode(alloc, part, second.get())?;
                Ok(HlValue::Right(Boxed::new(alloc, part)?))
            }
            CoreValue::Unit => unreachable!(),
            CoreValue::Pair(_, _) => unreachable!(),
        },
    }
}

/// The value that is encoded in a core value of the type's form.
pub fn from_core(alloc: Global, value: &CoreValue, kind: &HlType) -> Result<HlValue, AllocError>
    requires sound { IsSound kind.now }
    requires of_form { IsOf (value_of value.now) (form kind.now) }
    ensures encoded { IfOk result (λ found. encoded found kind.now ≡ Some (value_of value.now)) }
    ensures decoded { IfOk result (λ found. decoded kind.now (value_of value.now) ≡ Some found) }
{
    Ok(decode(alloc, value, kind)?)
}
