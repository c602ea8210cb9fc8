//! Terms of forms that have one part.

ghost use Rattle.std.specs.Prelude.{◌≡◌, OnOk};
ghost use Rattle.hl_syntax.specs.declared.kinds.HlType.TheViews.{out-HlType};
ghost use Rattle.hl_terms.specs.Translated as term;
ghost use Rattle.simplicityhl.specs.Kinds.{IsSound};
ghost use Rattle.term_builder.specs.State.{state_of};
ghost use Rattle.term_builder.specs.Steps.{kind_of_core, IsSoundCore, MayMake};
ghost use Rattle.translate.specs.Forms.{finish_last, IsSoundFinish};

use hl_syntax::HlType;
use std::alloc::AllocError;
use term_builder::{Builder, CoreType};

/// A form that has one part, beside that part.
#[derive(Clone, Copy)]
pub(crate) enum Finish<'a> {
    Assert,
    Dbg,
    Into(&'a HlType),
    Unwrap,
    UnwrapLeft(&'a HlType),
    UnwrapRight(&'a HlType),
    IsNone(&'a HlType),
    Left,
    Right,
    Some,
}

/// What an either of a type holds on its left.
pub(crate) fn left_of(kind: &HlType) -> CoreType<'_>
    requires { IsSound kind.now }
    ensures is { kind_of_core result ≡ term.left_of (out-HlType kind.now) }
    ensures sound { IsSoundCore result }
{
    match kind {
        HlType::Either(left, _) => CoreType::Form(left.get()),
        _ => CoreType::Unit,
    }
}

/// What an either of a type holds on its right.
pub(crate) fn right_of(kind: &HlType) -> CoreType<'_>
    requires { IsSound kind.now }
    ensures is { kind_of_core result ≡ term.right_of (out-HlType kind.now) }
    ensures sound { IsSoundCore result }
{
    match kind {
        HlType::Either(_, right) => CoreType::Form(right.get()),
        _ => CoreType::Unit,
    }
}

/// What an option of a type holds.
pub(crate) fn item_of(kind: &HlType) -> CoreType<'_>
    requires { IsSound kind.now }
    ensures is { kind_of_core result ≡ term.item_of (out-HlType kind.now) }
    ensures sound { IsSoundCore result }
{
    match kind {
        HlType::Option(item) => CoreType::Form(item.get()),
        _ => CoreType::Unit,
    }
}

/// Makes the term of a form, at a type, of that of its part.
pub(crate) fn finish_form(
    builder: &mut Builder,
    how: Finish,
    kind: &HlType,
) -> Result<(), AllocError>
    requires sound { IsSound kind.now }
    requires parts_sound { IsSoundFinish how }
    requires makes { MayMake 1 (state_of builder.old) (finish_last how kind.now (state_of builder.old)) }
    ensures { OnOk result (state_of builder.new ≡ finish_last how.entry kind.now (state_of builder.old)) }
{
    let form = CoreType::Form(kind);
    match how {
        Finish::Assert => builder.assert(),
        Finish::Dbg | Finish::Into(_) => Ok(()),
        Finish::Unwrap => builder.unwrap_right(CoreType::Unit, form),
        Finish::UnwrapLeft(other) => builder.unwrap_left(form, CoreType::Form(other)),
        Finish::UnwrapRight(other) => builder.unwrap_right(CoreType::Form(other), form),
        Finish::IsNone(item) => builder.test_none(CoreType::Form(item)),
        Finish::Left => builder.to_left(right_of(kind)),
        Finish::Right => builder.to_right(left_of(kind)),
        Finish::Some => builder.to_right(CoreType::Unit),
    }
}
