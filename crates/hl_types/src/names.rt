//! Names of types.

ghost use Rattle.std.specs.Prelude.{◌≡◌, IfOk, IfSome, option_copied, option_map, find, bytes_eq};
ghost use Rattle.hl_types.specs.Walks.{AreSound};
ghost use Rattle.simplicityhl.specs.Kinds.{IsSound};
ghost use Rattle.simplicityhl.specs.Written.{named, width_names};

use crate::copies::copy_type;
use hl_syntax::{HlType, TypedName};
use std::alloc::{AllocError, Global};

/// The width of the numbers whose type has the name.
fn width_named(name: &str) -> Option<u16>
    ensures { result ≡ option_map (λ entry. entry.1) (find (λ entry. bytes_eq name.now entry.0) width_names) }
{
    match name {
        "u1" => Some(1),
        "u2" => Some(2),
        "u4" => Some(4),
        "u8" => Some(8),
        "u16" => Some(16),
        "u32" => Some(32),
        "u64" => Some(64),
        "u128" => Some(128),
        "u256" => Some(256),
        _ => None,
    }
}

/// The first alias of a name.
#[tactic(auto, using(crate::proofs::Found::found_holds))]
fn alias_named<'a>(name: &str, aliases: &'a [TypedName]) -> Option<&'a TypedName>
    requires { AreSound aliases.now }
    ensures found { option_copied result ≡ find (λ alias. bytes_eq name.now alias.name) aliases.now }
    ensures sound { IfSome result (λ alias. IsSound alias.now.kind) }
{
    aliases.iter().find(|alias| name == alias.name.as_str())
}

/// The type that a name stands for: `bool`, a type of numbers, or the first alias of the name. None
/// where it stands for none.
pub(crate) fn type_named(
    alloc: Global,
    name: &str,
    aliases: &[TypedName],
) -> Result<Option<HlType>, AllocError>
    requires { AreSound aliases.now }
    ensures named { IfOk result (λ kind. kind ≡ named aliases.now name.now) }
    ensures sound { IfOk result (λ kind. IfSome kind (λ kind. IsSound kind)) }
{
    if name == "bool" {
        return Ok(Some(HlType::Bool));
    }
    if let Some(width) = width_named(name) {
        return Ok(Some(HlType::UInt(width)));
    }
    match alias_named(name, aliases) {
        Some(alias) => Ok(Some(copy_type(alloc, &alias.kind)?)),
        None => Ok(None),
    }
}
