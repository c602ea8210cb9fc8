//! The form of a type.

ghost use Rattle.std.specs.Prelude.{◌≡◌, ◌<◌, length, IfOk, IsTrue};
ghost use Rattle.simplicityhl.specs.Kinds.{bound_level, form, is_bound, IsSound};
ghost use Rattle.type_table.specs.Kinds.{Means, IsGrown, IsDistinct};

use crate::forms::{copies_form, list_form, option_form, tuple_form};
use hl_syntax::HlType;
use std::alloc::{AllocError, Global};
use type_table::{TypeId, TypeTable};

/// The id of a type's form, the core type that its values are encoded in.
#[tactic(auto, using(crate::proofs::Parts::sound_here))]
pub fn structure(alloc: Global, kind: &HlType, types: &mut TypeTable) -> Result<TypeId, AllocError>
    requires { IsSound kind.now }
    ensures ok { IfOk result (λ id. Means types.new id (form kind.now)) }
    ensures grown { IsGrown types.old types.new }
    ensures distinct { IsDistinct types.new }
{
    match kind {
        HlType::Bool => Ok(types.word(1)?),
        HlType::UInt(width) => Ok(types.word(*width)?),
        HlType::Tuple(parts) => {
            let mut ids = Vec::new(alloc);
            'parts: for part in parts.as_slice() {
                let id = structure(alloc, part, types)?;
                ids.push(id)?;
            }
            Ok(tuple_form(types, ids.as_slice())?)
        }
        HlType::Array(item, count) => {
            let item = structure(alloc, item.get(), types)?;
            Ok(copies_form(types, item, *count)?)
        }
        HlType::List(item, bound) => {
            let item = structure(alloc, item.get(), types)?;
            Ok(list_form(types, item, level_of(*bound))?)
        }
        HlType::Option(item) => {
            let item = structure(alloc, item.get(), types)?;
            Ok(option_form(types, item)?)
        }
        HlType::Either(left, right) => {
            let left = structure(alloc, left.get(), types)?;
            let right = structure(alloc, right.get(), types)?;
            Ok(types.sum(left, right)?)
        }
    }
}

/// The level of a list's bound: 2 ^ (k + 1) has level k.
fn level_of(bound: u32) -> u32
    requires { IsTrue (is_bound bound) }
    ensures level { result ≡ bound_level bound }
    ensures few { result < 16 }
{
    bound.ilog2() - 1
}
