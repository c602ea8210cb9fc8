//! Paths to the names of patterns, and of tuples of witnesses.

ghost use Rattle.std.specs.Prelude.{◌≡◌, map, IfOk};
ghost use Rattle.scope_layout.specs.Paths.{among, at_name, variable_path, witness_path};

use crate::layout::WitnessNames;
use crate::path::{Route, descend};
use hl_syntax::{Pattern, PatternForm, Patterns};
use std::alloc::{AllocError, Global};

/// The path to a name that stands alone.
fn to_name(alloc: Global, other: &str, name: &str) -> Option<Route>
    ensures { result ≡ at_name name.now other.now }
{
    if name == other {
        Some(Route::here(alloc))
    } else {
        None
    }
}

/// The path to a name in the values of a pattern.
#[cycle(names)]
pub(crate) fn to_variable(
    alloc: Global,
    pattern: &Pattern,
    name: &str,
) -> Result<Option<Route>, AllocError>
    ensures { IfOk result (λ found. found ≡ variable_path name.now pattern.now) }
{
    match &pattern.form {
        PatternForm::Name(other) => Ok(to_name(alloc, other.as_str(), name)),
        PatternForm::Ignore => Ok(None),
        PatternForm::Tuple(parts) => to_part(alloc, parts, name),
        PatternForm::Array(parts) => to_part(alloc, parts, name),
    }
}

/// The path to a name in the tuple of the values of patterns.
#[cycle(names)]
fn to_part(alloc: Global, parts: &Patterns, name: &str) -> Result<Option<Route>, AllocError>
    ensures { IfOk result (λ found. found ≡ among (map (variable_path name.now) parts.now)) }
{
    'parts: for (place, part) in parts.as_slice().iter().enumerate() {
        if let Some(mut route) = to_variable(alloc, part, name)? {
            descend(&mut route, place, parts.len())?;
            return Ok(Some(route));
        }
    }
    Ok(None)
}

/// The path to a name in the tuple of the values of witnesses.
pub(crate) fn to_witness(
    alloc: Global,
    witnesses: &WitnessNames,
    name: &str,
) -> Result<Option<Route>, AllocError>
    ensures { IfOk result (λ found. found ≡ witness_path name.now witnesses.now) }
{
    'witnesses: for (place, witness) in witnesses.as_slice().iter().enumerate() {
        if let Some(mut route) = to_name(alloc, witness.name.as_str(), name) {
            descend(&mut route, place, witnesses.len())?;
            return Ok(Some(route));
        }
    }
    Ok(None)
}
