//! Whether a value is of a type.

ghost use Rattle.std.specs.Prelude.{◌≡◌, map, is_some, IsTrue};
ghost use Rattle.std.specs.List.{list_all};
ghost use Rattle.simplicityhl.specs.Kinds.{is_sound};
ghost use Rattle.hl_meaning.specs.Values.{at_all, at_each, encoded};

use hl_data::{HlValue, HlValues};
use hl_syntax::{HlType, HlTypes};

/// Whether a value is of a sound type.
#[cycle(of_type)]
pub(crate) fn is_value_of(value: &HlValue, kind: &HlType) -> bool
    requires { IsTrue (is_sound kind.now) }
    ensures { result ≡ is_some (encoded value.now kind.now) }
{
    match kind {
        HlType::Bool => matches!(value, HlValue::Bool(_)),
        HlType::UInt(width) => match value {
            HlValue::Number(word) => word.width() == *width,
            _ => false,
        },
        HlType::Tuple(kinds) => match value {
            HlValue::Tuple(parts) => are_parts_of(parts, kinds),
            _ => false,
        },
        HlType::Array(item, count) => match value {
            HlValue::Array(items) => {
                items.len() == *count as usize && are_items_of(items, item.get())
            }
            _ => false,
        },
        HlType::List(item, bound) => match value {
            HlValue::List(items) => {
                items.len() < *bound as usize && are_items_of(items, item.get())
            }
            _ => false,
        },
        HlType::Option(item) => match value {
            HlValue::Nothing => true,
            HlValue::Some(part) => is_value_of(part.get(), item.get()),
            _ => false,
        },
        HlType::Either(left, right) => match value {
            HlValue::Left(part) => is_value_of(part.get(), left.get()),
            HlValue::Right(part) => is_value_of(part.get(), right.get()),
            _ => false,
        },
    }
}

/// Whether values are those of a tuple's parts.
#[cycle(of_type)]
pub(crate) fn are_parts_of(parts: &HlValues, kinds: &HlTypes) -> bool
    requires { IsTrue (list_all (λ kind. kind) (map is_sound kinds.now)) }
    ensures { result ≡ is_some (at_each (map encoded parts.now) kinds.now) }
{
    if parts.len() != kinds.len() {
        return false;
    }
    'parts: for (place, part) in parts.as_slice().iter().enumerate() {
        if !is_value_of(part, kinds.get(place)) {
            return false;
        }
    }
    true
}

/// Whether each value is of one sound type.
#[cycle(of_type)]
pub(crate) fn are_items_of(items: &HlValues, kind: &HlType) -> bool
    requires { IsTrue (is_sound kind.now) }
    ensures { result ≡ is_some (at_all (map encoded items.now) kind.now) }
{
    'items: for item in items.as_slice() {
        if !is_value_of(item, kind) {
            return false;
        }
    }
    true
}
