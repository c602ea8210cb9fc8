//! The argument of a function.

ghost use Rattle.std.specs.Prelude.{◌≡◌, ◌↔◌, ◌++◌, [], map, IsTrue, IfOk};
ghost use Rattle.std.specs.Option.{option_copied};
ghost use Rattle.hl_progress.specs.Calls.{argument_type};
ghost use Rattle.hl_meaning.specs.Entries.{IsValueOf};
ghost use Rattle.hl_rules.specs.Same.{unit_type};
ghost use Rattle.simplicityhl.specs.Kinds.{IsSound};
ghost use Rattle.command_outcome.specs.Leads.{Leads};
ghost use Rattle.eval_command.specs.Evaluation.{IsArgument};

use command_outcome::{DataCause, Stop, refused_data};
use hl_data::{HlValue, HlValues};
use hl_syntax::{HlType, HlTypes, TypedName};
use hl_types::copy_type;
use hl_values::{ValueRefusal, read_value};
use std::alloc::{AllocError, Global};

/// The type of the one argument of a function with these parameters: `()` for none, the type of
/// one, a tuple for more.
pub fn argument_type(alloc: Global, params: &[TypedName]) -> Result<HlType, AllocError>
    ensures { IfOk result (λ kind. kind ≡ argument_type params.now) }
{
    if let [param] = params {
        return copy_type(alloc, &param.kind);
    }
    Ok(HlType::Tuple(types_of(alloc, params)?))
}

/// The types of parameters.
fn types_of(alloc: Global, params: &[TypedName]) -> Result<HlTypes, AllocError>
    ensures { IfOk result (λ kinds. kinds ≡ map (λ p. p.kind) params.now) }
{
    let mut kinds = HlTypes::new(alloc);
    'params: for param in params {
        kinds.push(copy_type(alloc, &param.kind)?)?;
    }
    Ok(kinds)
}

/// Whether a type is `()`.
fn is_unit(kind: &HlType) -> bool
    ensures { IsTrue result ↔ (kind.now ≡ unit_type) }
{
    match kind {
        HlType::Tuple(parts) => parts.as_slice().is_empty(),
        _ => false,
    }
}

/// The argument of a type from its text, where one is given.
pub fn read_argument(alloc: Global, kind: &HlType, input: Option<&str>) -> Result<HlValue, Stop>
    requires { IsSound kind.now }
    ensures read { Leads (IsArgument kind.now (option_copied input.entry)) result }
    ensures of_kind { IfOk result (λ argument. IsValueOf argument kind.now) }
{
    let Some(text) = input else {
        if is_unit(kind) {
            return Ok(HlValue::Tuple(HlValues::new(alloc)));
        }
        return Err(refused_data(alloc, DataCause::Missing, "input"));
    };
    match read_value(alloc, text, kind) {
        Ok(value) => Ok(value),
        Err(ValueRefusal::NotValue) => Err(refused_data(alloc, DataCause::NotValue, "input")),
        Err(ValueRefusal::OutOfMemory) => Err(Stop::OutOfMemory),
    }
}
