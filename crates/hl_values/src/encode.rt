//! Source values as core values.

ghost use Rattle.std.specs.Prelude.{◌≡◌, ℕ, ◌<◌, length, map, Some, IfOk, IsSome, IsTrue};
ghost use Rattle.std.specs.List.{list_all};
ghost use Rattle.core_data.specs.Data.{value_of, values_of};
ghost use Rattle.hl_meaning.specs.Values.{at_all, at_each, encoded, decoded};
ghost use Rattle.simplicityhl.specs.Kinds.{is_sound};
ghost use Rattle.hl_meaning.specs.Entries.{IsValueOf};
ghost use Rattle.simplicity.specs.Types.{IsOf};
ghost use Rattle.simplicityhl.specs.Kinds.{bound_level, form, is_bound, IsSound};

use crate::join::{bit, left, list_of_last, right, tuple_of_last};
use core_data::CoreValue;
use hl_data::{HlValue, HlValues};
use hl_syntax::{HlType, HlTypes};
use std::alloc::{AllocError, Global};

/// The level of a list's bound: 2 ^ (k + 1) has level k.
pub(crate) fn list_level(bound: u32) -> u32
    requires { IsTrue (is_bound bound) }
    ensures level { result ≡ bound_level bound }
    ensures few { result < 16 }
{
    bound.ilog2() - 1
}

/// Each value at the type at its place.
#[cycle(encode)]
pub(crate) fn encode_parts(
    alloc: Global,
    parts: &HlValues,
    kinds: &HlTypes,
) -> Result<Vec<CoreValue>, AllocError>
    requires sound { IsTrue (list_all (λ kind. kind) (map is_sound kinds.now)) }
    requires there { IsSome (at_each (map encoded parts.now) kinds.now) }
    ensures { IfOk result (λ cores.
        at_each (map encoded parts.now) kinds.now ≡ Some (values_of cores.items)) }
{
    let mut cores = Vec::new(alloc);
    'parts: for (place, part) in parts.as_slice().iter().enumerate() {
        let core = encode(alloc, part, kinds.get(place))?;
        cores.push(core)?;
    }
    Ok(cores)
}

/// Each value at one type.
#[cycle(encode)]
pub(crate) fn encode_items(
    alloc: Global,
    items: &HlValues,
    kind: &HlType,
) -> Result<Vec<CoreValue>, AllocError>
    requires sound { IsSound kind.now }
    requires there { IsSome (at_all (map encoded items.now) kind.now) }
    ensures { IfOk result (λ cores.
        at_all (map encoded items.now) kind.now ≡ Some (values_of cores.items)) }
{
    let mut cores = Vec::new(alloc);
    'items: for item in items.as_slice() {
        let core = encode(alloc, item, kind)?;
        cores.push(core)?;
    }
    Ok(cores)
}

/// The core value that a value of the type is encoded in.
#[cycle(encode)]
pub(crate) fn encode(alloc: Global, value: &HlValue, kind: &HlType) -> Result<CoreValue, AllocError>
    requires sound { IsSound kind.now }
    requires of_kind { IsValueOf value.now kind.now }
    ensures { IfOk result (λ core. encoded value.now kind.now ≡ Some (value_of core)) }
{
    match value {
        HlValue::Bool(truth) => Ok(bit(alloc, *truth)?),
        HlValue::Number(word) => Ok(word.to_value(alloc)?),
        HlValue::Tuple(parts) => {
            let HlType::Tuple(kinds) = kind else {
                unreachable!()
            };
            let mut cores = encode_parts(alloc, parts, kinds)?;
            let count = cores.len();
            Ok(tuple_of_last(alloc, &mut cores, count)?)
        }
        HlValue::Array(items) => {
            let HlType::Array(item, _) = kind else {
                unreachable!()
            };
            let mut cores = encode_items(alloc, items, item.get())?;
            let count = cores.len();
            Ok(tuple_of_last(alloc, &mut cores, count)?)
        }
        HlValue::List(items) => {
            let HlType::List(item, bound) = kind else {
                unreachable!()
            };
            let mut cores = encode_items(alloc, items, item.get())?;
            let count = cores.len();
            Ok(list_of_last(alloc, &mut cores, count, list_level(*bound))?)
        }
        HlValue::Nothing => Ok(left(alloc, CoreValue::Unit)?),
        HlValue::Some(part) => {
            let HlType::Option(item) = kind else {
                unreachable!()
            };
            let core = encode(alloc, part.get(), item.get())?;
            Ok(right(alloc, core)?)
        }
        HlValue::Left(part) => {
            let HlType::Either(first, _) = kind else {
                unreachable!()
            };
            let core = encode(alloc, part.get(), first.get())?;
            Ok(left(alloc, core)?)
        }
        HlValue::Right(part) => {
            let HlType::Either(_, second) = kind else {
                unreachable!()
            };
            let core = encode(alloc, part.get(), second.get())?;
            Ok(right(alloc, core)?)
        }
    }
}

/// The core value that a value is encoded in at its type. The encoding is one to one onto the core
/// values of the type's form.
pub fn to_core(alloc: Global, value: &HlValue, kind: &HlType) -> Result<CoreValue, AllocError>
    requires sound { IsSound kind.now }
    requires of_kind { IsValueOf value.now kind.now }
    ensures encoded { IfOk result (λ core. encoded value.now kind.now ≡ Some (value_of core)) }
    ensures is_of { IfOk result (λ core. IsOf (value_of core) (form kind.now)) }
    ensures decoded { IfOk result (λ core. decoded kind.now (value_of core) ≡ Some value.now) }
{
    Ok(encode(alloc, value, kind)?)
}
