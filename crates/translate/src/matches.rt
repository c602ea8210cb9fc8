//! What the arms of a match bind, and which of them is for the left tag.

ghost use Rattle.std.specs.Prelude.{◌≡◌};
ghost use Rattle.hl_terms.specs.Translated as term;
ghost use Rattle.translate.specs.Blocks.{arm_pattern, arm_kind};

use crate::place::Place;
use hl_data::TypedSide;
use hl_syntax::{HlType, Pattern};

/// Whether a side takes values whose tag is the left one.
pub(crate) fn is_left(side: &TypedSide) -> bool
    ensures { result ≡ term.is_left side.now }
{
    matches!(
        side,
        TypedSide::Left(_, _) | TypedSide::Nothing | TypedSide::False
    )
}

/// What a side binds: its pattern at its type, or nothing.
pub(crate) fn bound_by<'a>(place: Place<'a>, side: &'a TypedSide) -> (&'a Pattern, &'a HlType)
    ensures pattern { result.0.now ≡ arm_pattern place.entry side.now }
    ensures kind { result.1.now ≡ arm_kind place.entry side.now }
{
    match side {
        TypedSide::Left(pattern, kind)
        | TypedSide::Right(pattern, kind)
        | TypedSide::Some(pattern, kind) => (pattern, kind),
        TypedSide::Nothing | TypedSide::True | TypedSide::False => (place.nothing, place.unit),
    }
}
