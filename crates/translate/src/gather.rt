//! Terms of forms that have several parts.

ghost use Rattle.std.specs.Prelude.{◌≡◌, ◌<◌, ◌≤◌, position, bytes_eq, take, length, OnOk, IfSome};
ghost use Rattle.simplicityhl.specs.Kinds.{IsSound};
ghost use Rattle.term_builder.specs.State.{state_of};
ghost use Rattle.term_builder.specs.Steps.{MayMake};
ghost use Rattle.translate.specs.Fits.{Known};
ghost use Rattle.translate.specs.Forms.{gather_last, MayGather};
ghost use Rattle.translate.specs.Here.{terms_of, before_of};
ghost use Rattle.std.specs.Prelude.{map};

use crate::place::Place;
use hl_data::TypedFunction;
use hl_syntax::HlType;
use lists::Text;
use std::alloc::AllocError;
use term_builder::{Builder, CoreType};

/// A form that has several parts, beside those parts.
#[derive(Clone, Copy)]
pub(crate) enum Gather<'a> {
    Tuple,
    Array,
    List,
    Call(&'a Text),
}

/// The place of the first of so many functions that has a name.
fn position_of(functions: &[TypedFunction], name: &str) -> Option<usize>
    ensures { result ≡ position (λ f. bytes_eq name.now f.name) functions.now }
{
    functions.iter().position(|f| name == f.name.as_str())
}

/// Makes the term of a form, at a type, of those of its parts.
pub(crate) fn gather_parts(
    place: Place,
    builder: &mut Builder,
    how: Gather,
    kind: &HlType,
    count: usize,
) -> Result<(), AllocError>
    requires sound { IsSound kind.now }
    requires known { Known place }
    requires may { MayGather place how kind.now }
    requires kept { (state_of builder.old).kept ≡ map (λ f. f.term) (terms_of place) }
    requires makes { MayMake count (state_of builder.old)
        (gather_last place how kind.now count (state_of builder.old)) }
    ensures { OnOk result (state_of builder.new
        ≡ gather_last place.entry how.entry kind.now count (state_of builder.old)) }
{
    match how {
        Gather::Tuple | Gather::Array => builder.tuple(count),
        Gather::List => match kind {
            HlType::List(item, bound) => builder.list(count, CoreType::Form(item.get()), *bound),
            _ => unreachable!(),
        },
        Gather::Call(name) => {
            let before = &place.program.functions().as_slice()[..place.count];
            match position_of(before, name.as_str()) {
                Some(index) => builder.call(index, count),
                None => unreachable!(),
            }
        }
    }
}
