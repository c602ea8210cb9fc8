//! Shapes of types: their parts, or the rule that a type of another shape breaks.

ghost use Rattle.std.specs.Prelude.{◌≡◌, IfOk, IsTrue};
ghost use Rattle.hl_rules.specs.Same.{width_of, parts_of, array_of, list_of, option_of, either_of, same_type, unit_type};
ghost use Rattle.hl_rules.specs.Steps.{wants};
ghost use Rattle.simplicityhl.specs.Kinds.{is_width, IsSound};
ghost use Rattle.hl_scope.specs.Contexts.{AreSoundTypes};
ghost use Rattle.hl_scope.specs.Checks.{Checks, ChecksAs};

use crate::refusal::CheckRefusal;
use hl_syntax::{HlType, HlTypes, Rule, Span};

/// The width of a type of numbers.
#[tactic(auto, using(crate::proofs::Sounds::width_sound))]
pub fn number_width(kind: &HlType, rule: Rule, span: Span) -> Result<u16, CheckRefusal>
    ensures answers { Checks (wants (width_of kind.now) rule span) result }
    ensures sound { IsSound kind.now → IfOk result (λ width. IsTrue (is_width width)) }
{
    match kind {
        HlType::UInt(width) => Ok(*width),
        _ => Err(CheckRefusal::Rule { rule, span }),
    }
}

/// The types of a tuple's parts.
#[tactic(auto, using(crate::proofs::Sounds::tuple_sound))]
pub fn tuple_parts(kind: &HlType, rule: Rule, span: Span) -> Result<&HlTypes, CheckRefusal>
    ensures answers { ChecksAs (λ parts. parts.now) (wants (parts_of kind.now) rule span) result }
    ensures sound { IsSound kind.now → IfOk result (λ parts. AreSoundTypes parts.now) }
{
    match kind {
        HlType::Tuple(parts) => Ok(parts),
        _ => Err(CheckRefusal::Rule { rule, span }),
    }
}

/// The type of an array's items, and their number.
#[tactic(auto, using(crate::proofs::Sounds::array_sound))]
pub fn array_parts(kind: &HlType, rule: Rule, span: Span) -> Result<(&HlType, u32), CheckRefusal>
    ensures answers { ChecksAs (λ parts. (parts.0.now, parts.1)) (wants (array_of kind.now) rule span) result }
    ensures sound { IsSound kind.now → IfOk result (λ parts. IsSound parts.0.now) }
{
    match kind {
        HlType::Array(item, count) => Ok((item.get(), *count)),
        _ => Err(CheckRefusal::Rule { rule, span }),
    }
}

/// The type of a list's items, and its bound.
#[tactic(auto, using(crate::proofs::Sounds::list_sound))]
pub fn list_parts(kind: &HlType, rule: Rule, span: Span) -> Result<(&HlType, u32), CheckRefusal>
    ensures answers { ChecksAs (λ parts. (parts.0.now, parts.1)) (wants (list_of kind.now) rule span) result }
    ensures sound { IsSound kind.now → IfOk result (λ parts. IsSound parts.0.now) }
{
    match kind {
        HlType::List(item, bound) => Ok((item.get(), *bound)),
        _ => Err(CheckRefusal::Rule { rule, span }),
    }
}

/// The type of an option's item.
#[tactic(auto, using(crate::proofs::Sounds::item_sound))]
pub fn option_item(kind: &HlType, rule: Rule, span: Span) -> Result<&HlType, CheckRefusal>
    ensures answers { ChecksAs (λ item. item.now) (wants (option_of kind.now) rule span) result }
    ensures sound { IsSound kind.now → IfOk result (λ item. IsSound item.now) }
{
    match kind {
        HlType::Option(item) => Ok(item.get()),
        _ => Err(CheckRefusal::Rule { rule, span }),
    }
}

/// The types of an either's left and its right.
#[tactic(auto, using(crate::proofs::Sounds::sides_sound))]
pub fn either_sides(
    kind: &HlType,
    rule: Rule,
    span: Span,
) -> Result<(&HlType, &HlType), CheckRefusal>
    ensures answers { ChecksAs (λ sides. (sides.0.now, sides.1.now)) (wants (either_of kind.now) rule span) result }
    ensures sound { IsSound kind.now → IfOk result (λ sides. IsSound sides.0.now × IsSound sides.1.now) }
{
    match kind {
        HlType::Either(left, right) => Ok((left.get(), right.get())),
        _ => Err(CheckRefusal::Rule { rule, span }),
    }
}

/// Whether a type is that of the empty tuple.
pub fn is_unit(kind: &HlType) -> bool
    ensures { result ≡ same_type unit_type kind.now }
{
    match kind {
        HlType::Tuple(parts) => parts.is_empty(),
        _ => false,
    }
}

/// Whether a type is `bool`.
pub fn is_bool(kind: &HlType) -> bool
    ensures { result ≡ same_type HlType.Bool kind.now }
{
    matches!(kind, HlType::Bool)
}
