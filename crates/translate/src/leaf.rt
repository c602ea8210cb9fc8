//! Terms of forms without parts.

ghost use Rattle.std.specs.Prelude.{◌≡◌, OnOk, bytes_eq, position};
ghost use Rattle.std.specs.List.{position_or_len};
ghost use Rattle.hl_meaning.specs.Entries.{IsValueOf};
ghost use Rattle.hl_syntax.specs.declared.kinds.HlType.TheViews.{out-HlType};
ghost use Rattle.hl_terms.specs.Paths.{variable_term, witness_term};
ghost use Rattle.hl_terms.specs.Translated.{or_fail, witness_or, witness_number, literal_at, item_of, value_term};
ghost use Rattle.layout_laws.specs.Laws.{HasVariables};
ghost use Rattle.layout_laws.specs.Scopes.{scope_shape};
ghost use Rattle.simplicity.specs.Arrows.{IsTypedTerm};
ghost use Rattle.simplicity.specs.Makes as make;
ghost use Rattle.simplicityhl.specs.Kinds as kinds;
ghost use Rattle.simplicityhl.specs.Kinds.{IsSound};
ghost use Rattle.term_builder.specs.State.{state_of};
ghost use Rattle.term_builder.specs.Steps.{with_term};
ghost use Rattle.translate.specs.Fits.{Stands};
ghost use Rattle.translate.specs.Forms.{IsSpelled};
ghost use Rattle.translate.specs.Here.{IsReady, witnesses_in};

use crate::finish::item_of;
use crate::place::Place;
use hl_literals::word_spelled;
use hl_syntax::{HlType, TypedName, Wanted};
use lists::Text;
use scope_layout::Layout;
use std::alloc::AllocError;
use term_builder::{Builder, CoreType};

/// `None`, at a type.
pub(crate) fn nothing(builder: &mut Builder, kind: &HlType) -> Result<(), AllocError>
    requires { IsSound kind.now }
    ensures { OnOk result (state_of builder.new
        ≡ with_term (make.to_left (item_of (out-HlType kind.now)) (make.unit (state_of builder.old).here))
        (state_of builder.old)) }
{
    builder.nothing(item_of(kind))
}

/// A literal, at a type.
pub(crate) fn literal(builder: &mut Builder, kind: &HlType, text: &Text) -> Result<(), AllocError>
    requires sound { IsSound kind.now }
    requires spelled { IsSpelled kind.now text.now }
    ensures { OnOk result (state_of builder.new
        ≡ with_term (literal_at (out-HlType kind.now) (state_of builder.old).here text.now)
        (state_of builder.old)) }
{
    match kind {
        HlType::UInt(width) => match word_spelled(text.as_str(), *width) {
            Some(word) => builder.word(word),
            None => unreachable!(),
        },
        _ => unreachable!(),
    }
}

/// The value of a name, at a type.
pub(crate) fn variable(
    place: Place,
    builder: &mut Builder,
    layout: &Layout,
    kind: &HlType,
    name: &Text,
) -> Result<(), AllocError>
    requires sound { IsSound kind.now }
    requires stands { (names : _) × Stands place layout.now names }
    requires ready { IsReady place layout.now (state_of builder.old) }
    ensures { OnOk result (state_of builder.new
        ≡ with_term (or_fail (variable_term name.now (scope_shape layout.now)) (state_of builder.old).here (kinds.form kind.now))
        (state_of builder.old)) }
{
    let _place = place;
    match layout.path(name.as_str())? {
        Some(path) => builder.path(&path),
        None => builder.failure(CoreType::Form(kind)),
    }
}

/// The place of the first witness that has a name.
fn place_of(witnesses: &[TypedName], name: &str) -> Option<usize>
    ensures { result ≡ position (λ w. bytes_eq name.now w.name) witnesses.now }
{
    witnesses.iter().position(|w| name == w.name.as_str())
}

/// The number of a witness: the place of its name.
fn number_of(witnesses: &Wanted, name: &str) -> usize
    ensures { result ≡ witness_number witnesses.now name.now }
{
    match place_of(witnesses.as_slice(), name) {
        Some(place) => place,
        None => witnesses.len(),
    }
}

/// The value of a witness, at a type: where it is bound the path to it, and else a leaf.
pub(crate) fn witness(
    place: Place,
    builder: &mut Builder,
    layout: &Layout,
    kind: &HlType,
    name: &Text,
) -> Result<(), AllocError>
    requires sound { IsSound kind.now }
    requires stands { (names : _) × Stands place layout.now names }
    requires ready { IsReady place layout.now (state_of builder.old) }
    ensures { OnOk result (state_of builder.new
        ≡ with_term (witness_or (witness_term name.now (scope_shape layout.now))
        (make.witness (state_of builder.old).here (kinds.form kind.now) (witness_number (witnesses_in place.entry) name.now)))
        (state_of builder.old)) }
{
    match layout.witness_path(name.as_str())? {
        Some(path) => builder.path(&path),
        None => {
            let number = number_of(place.program.witnesses(), name.as_str());
            builder.witness(number, CoreType::Form(kind))
        }
    }
}
