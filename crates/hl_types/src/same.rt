//! Types that are the same, and types of one form.

ghost use Rattle.std.specs.Prelude.{◌≡◌, ◌≢◌, IfOk, MatchBool};
ghost use Rattle.simplicityhl.specs.Kinds.{form, IsSound};
ghost use Rattle.simplicityhl.specs.Same.{same_kind, same_type};

use crate::kinds::structure;
use hl_syntax::HlType;
use std::alloc::{AllocError, Global};
use type_table::TypeTable;

/// Whether two types are the same as written out without aliases.
pub fn same_type(one: &HlType, other: &HlType) -> bool
    ensures same { result ≡ same_type one.now other.now }
    ensures equal { MatchBool result (one.now ≡ other.now) (one.now ≢ other.now) }
{
    match (one, other) {
        (HlType::Bool, HlType::Bool) => true,
        (HlType::UInt(width), HlType::UInt(given)) => width == given,
        (HlType::Tuple(parts), HlType::Tuple(given)) => {
            if parts.len() != given.len() {
                return false;
            }
            'parts: for (place, part) in parts.as_slice().iter().enumerate() {
                if !same_type(part, given.get(place)) {
                    return false;
                }
            }
            true
        }
        (HlType::Array(item, count), HlType::Array(given, length)) => {
            count == length && same_type(item.get(), given.get())
        }
        (HlType::List(item, bound), HlType::List(given, limit)) => {
            bound == limit && same_type(item.get(), given.get())
        }
        (HlType::Option(item), HlType::Option(given)) => same_type(item.get(), given.get()),
        (HlType::Either(left, right), HlType::Either(first, second)) => {
            same_type(left.get(), first.get()) && same_type(right.get(), second.get())
        }
        _ => false,
    }
}

/// Whether the forms of two types are the same.
pub fn same_form(alloc: Global, one: &HlType, other: &HlType) -> Result<bool, AllocError>
    requires one { IsSound one.now }
    requires other { IsSound other.now }
    ensures { IfOk result (λ same. same ≡ same_kind (form one.now) (form other.now)) }
{
    let mut types = TypeTable::new(alloc);
    let one = structure(alloc, one, &mut types)?;
    let other = structure(alloc, other, &mut types)?;
    Ok(one == other)
}
