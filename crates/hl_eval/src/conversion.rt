//! `into`: the value of another type of the same form.

ghost use Rattle.std.specs.Prelude.{◌≡◌, IfOk};
ghost use Rattle.hl_eval.specs.Outcome.{AnswersMeaning};
ghost use Rattle.hl_meaning.specs.Mean.{are_alike, converted};

use crate::fault::EvalFault;
use crate::of_type::is_value_of;
use crate::sound::is_sound;
use hl_data::HlValue;
use hl_syntax::HlType;
use hl_types::same_form;
use hl_values::{from_core, to_core};
use std::alloc::{AllocError, Global};

/// The value of a type that has the encoding of a value of another type, where both have one form.
pub(crate) fn convert(
    alloc: Global,
    value: &HlValue,
    from: &HlType,
    to: &HlType,
) -> Result<HlValue, EvalFault>
    ensures { AnswersMeaning (converted from.now to.now value.now) result }
{
    if !are_alike(alloc, from, to)? {
        return Err(EvalFault::NoAnswer);
    }
    if !is_value_of(value, from) {
        return Err(EvalFault::NoAnswer);
    }
    let core = to_core(alloc, value, from)?;
    Ok(from_core(alloc, &core, to)?)
}

/// Whether both types are sound and have one form.
fn are_alike(alloc: Global, from: &HlType, to: &HlType) -> Result<bool, AllocError>
    ensures { IfOk result (λ alike. alike ≡ are_alike from.now to.now) }
{
    if !is_sound(from) || !is_sound(to) {
        return Ok(false);
    }
    Ok(same_form(alloc, from, to)?)
}
