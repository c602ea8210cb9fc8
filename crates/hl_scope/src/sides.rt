//! The sides of a match.

ghost use Rattle.std.specs.Prelude.{◌≡◌, IfOk, IsTrue};
ghost use Rattle.hl_syntax.specs.declared.tree.Pattern.{Pattern};
ghost use Rattle.hl_syntax.specs.declared.kinds.HlType.{HlType};
ghost use Rattle.hl_data.specs.declared.typed.TypedSide.{TypedSide};
ghost use Rattle.hl_rules.specs.Exprs.{are_sides, binding_walk, matched_type, side_walk};
ghost use Rattle.hl_types.specs.Walks.{AreSound};
ghost use Rattle.simplicityhl.specs.Kinds.{is_bound, is_count, IsSound};
ghost use Rattle.hl_scope.specs.Contexts.{IsSoundSide};
ghost use Rattle.hl_scope.specs.Checks.{Checks};

use crate::context::written;
use crate::copies::copy_pattern;
use crate::pattern::bind_pattern;
use crate::refusal::CheckRefusal;
use hl_data::TypedSide;
use hl_syntax::{Aliases, HlType, Pattern, Side, TypeText, Wanted};
use hl_types::copy_type;
use lists::Boxed;
use std::alloc::{AllocError, Global};

/// Whether the sides of two arms are Left and Right, None and Some, or false and true.
pub fn are_sides(first: &Side, second: &Side) -> bool
    ensures { result ≡ are_sides first.now second.now }
{
    match (first, second) {
        (Side::Left(_, _), Side::Right(_, _)) => true,
        (Side::Right(_, _), Side::Left(_, _)) => true,
        (Side::Nothing, Side::Some(_, _)) => true,
        (Side::Some(_, _), Side::Nothing) => true,
        (Side::False, Side::True) => true,
        (Side::True, Side::False) => true,
        _ => false,
    }
}

/// The type that a side binds, and its variables.
fn binding(
    alloc: Global,
    aliases: &Aliases,
    pattern: &Pattern,
    text: &TypeText,
) -> Result<(HlType, Wanted), CheckRefusal>
    requires { AreSound aliases.now }
    ensures answers { Checks (binding_walk aliases.now pattern.now text.now) result }
    ensures sound { IfOk result (λ found. IsSound found.0) }
{
    let kind = written(alloc, text, aliases)?;
    let mut bound = Wanted::new(alloc);
    bind_pattern(alloc, pattern, &kind, &mut bound)?;
    Ok((kind, bound))
}

/// A side with its type, and the variables that it binds.
pub fn side_at(
    alloc: Global,
    aliases: &Aliases,
    side: &Side,
) -> Result<(TypedSide, Wanted), CheckRefusal>
    requires { AreSound aliases.now }
    ensures answers { Checks (side_walk aliases.now side.now) result }
    ensures sound { IfOk result (λ found. IsSoundSide found.0) }
{
    match side {
        Side::Left(pattern, text) => {
            let (kind, bound) = binding(alloc, aliases, pattern, text)?;
            Ok((TypedSide::Left(copy_pattern(alloc, pattern)?, kind), bound))
        }
        Side::Right(pattern, text) => {
            let (kind, bound) = binding(alloc, aliases, pattern, text)?;
            Ok((TypedSide::Right(copy_pattern(alloc, pattern)?, kind), bound))
        }
        Side::Some(pattern, text) => {
            let (kind, bound) = binding(alloc, aliases, pattern, text)?;
            Ok((TypedSide::Some(copy_pattern(alloc, pattern)?, kind), bound))
        }
        Side::Nothing => Ok((TypedSide::Nothing, Wanted::new(alloc))),
        Side::True => Ok((TypedSide::True, Wanted::new(alloc))),
        Side::False => Ok((TypedSide::False, Wanted::new(alloc))),
    }
}

/// The type of a left and a right.
#[tactic(auto, using(crate::proofs::Sounds::either_sound))]
pub fn either_type(alloc: Global, left: &HlType, right: &HlType) -> Result<HlType, AllocError>
    requires left { IsSound left.now }
    requires right { IsSound right.now }
    ensures either { IfOk result (λ kind. kind ≡ HlType.Either left.now right.now) }
    ensures sound { IfOk result IsSound }
{
    let left = copy_type(alloc, left)?;
    let right = copy_type(alloc, right)?;
    Ok(HlType::Either(Boxed::new(alloc, left)?, Boxed::new(alloc, right)?))
}

/// The type of an option.
#[tactic(auto, using(crate::proofs::Sounds::option_sound))]
pub fn option_type(alloc: Global, item: &HlType) -> Result<HlType, AllocError>
    requires { IsSound item.now }
    ensures option { IfOk result (λ kind. kind ≡ HlType.Option item.now) }
    ensures sound { IfOk result IsSound }
{
    let item = copy_type(alloc, item)?;
    Ok(HlType::Option(Boxed::new(alloc, item)?))
}

/// The type of lists of an item with a bound.
#[tactic(auto, using(crate::proofs::Sounds::list_of_sound))]
pub fn list_type(alloc: Global, item: &HlType, bound: u32) -> Result<HlType, AllocError>
    requires item { IsSound item.now }
    requires bound { IsTrue (is_bound bound) }
    ensures list { IfOk result (λ kind. kind ≡ HlType.List item.now bound) }
    ensures sound { IfOk result IsSound }
{
    let item = copy_type(alloc, item)?;
    Ok(HlType::List(Boxed::new(alloc, item)?, bound))
}

/// The type of arrays of so many items.
#[tactic(auto, using(crate::proofs::Sounds::array_of_sound))]
pub fn array_type(alloc: Global, item: &HlType, count: u32) -> Result<HlType, AllocError>
    requires item { IsSound item.now }
    requires count { IsTrue (is_count count) }
    ensures array { IfOk result (λ kind. kind ≡ HlType.Array item.now count) }
    ensures sound { IfOk result IsSound }
{
    let item = copy_type(alloc, item)?;
    Ok(HlType::Array(Boxed::new(alloc, item)?, count))
}

/// The type that a match with these two sides takes apart.
#[tactic(auto, using(crate::proofs::Sounds::sound_bool))]
pub fn matched_type(
    alloc: Global,
    first: &TypedSide,
    second: &TypedSide,
) -> Result<HlType, AllocError>
    requires first { IsSoundSide first.now }
    requires second { IsSoundSide second.now }
    ensures matched { IfOk result (λ kind. kind ≡ matched_type first.now second.now) }
    ensures sound { IfOk result IsSound }
{
    match (first, second) {
        (TypedSide::Left(_, left), TypedSide::Right(_, right)) => {
            either_type(alloc, left, right)
        }
        (TypedSide::Right(_, right), TypedSide::Left(_, left)) => {
            either_type(alloc, left, right)
        }
        (TypedSide::Nothing, TypedSide::Some(_, item)) => option_type(alloc, item),
        (TypedSide::Some(_, item), TypedSide::Nothing) => option_type(alloc, item),
        _ => Ok(HlType::Bool),
    }
}
