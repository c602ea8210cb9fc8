//! The types of jets.

ghost use Rattle.std.specs.Prelude.{◌≡◌, map, IfOk};
ghost use Rattle.jet_table.specs.Rows.{row_of, kinds_of, kind_of};
ghost use Rattle.hl_rules.specs.Exprs.{jet_arguments, jet_named, jet_result, jet_type};
ghost use Rattle.hl_rules.specs.Steps.{wants};
ghost use Rattle.hl_scope.specs.Contexts.{AreSoundTypes};
ghost use Rattle.hl_scope.specs.Checks.{ChecksAs};

use crate::refusal::CheckRefusal;
use hl_syntax::{HlType, HlTypes, Mark, Rule};
use jet_table::{JetKind, JetRow, profile};
use std::alloc::{AllocError, Global};

/// The row of a jet.
pub fn jet_row(name: &Mark) -> Result<JetRow, CheckRefusal>
    ensures sound { IfOk result (λ row. AreSoundTypes (jet_arguments (row_of row))) }
    ensures answers { ChecksAs row_of (wants (jet_named name.now.text) Rule.K22 name.now.span) result }
{
    let jets = profile();
    match jets.find(name.text.as_str()) {
        Some(place) => Ok(*jets.row(place)),
        None => Err(CheckRefusal::Rule {
            rule: Rule::K22,
            span: name.span,
        }),
    }
}

/// The source type of a jet's argument or result.
fn jet_type(kind: JetKind) -> HlType
    ensures { result ≡ jet_type (kind_of kind) }
{
    match kind {
        JetKind::Bool => HlType::Bool,
        JetKind::UInt(width) => HlType::UInt(width),
    }
}

/// The source types that are there.
fn jet_types(alloc: Global, kinds: &[Option<JetKind>]) -> Result<HlTypes, AllocError>
    ensures { IfOk result (λ types. types ≡ map jet_type (kinds_of kinds.now)) }
{
    let mut types = HlTypes::new(alloc);
    for kind in kinds {
        if let Some(kind) = kind {
            types.push(jet_type(*kind))?;
        }
    }
    Ok(types)
}

/// The types of a jet's arguments.
pub fn argument_types(alloc: Global, row: &JetRow) -> Result<HlTypes, AllocError>
    ensures { IfOk result (λ types. types ≡ jet_arguments (row_of row.now)) }
{
    jet_types(alloc, &row.arguments)
}

/// The type of a jet's results: `()` for none, a tuple for two.
pub fn result_type(alloc: Global, row: &JetRow) -> Result<HlType, AllocError>
    ensures { IfOk result (λ kind. kind ≡ jet_result (row_of row.now)) }
{
    let types = jet_types(alloc, &row.results)?;
    if types.len() == 1 {
        let mut types = types.into_vec();
        if let Some(only) = types.pop() {
            return Ok(only);
        }
        return Ok(HlType::Tuple(HlTypes::from_vec(types)));
    }
    Ok(HlType::Tuple(types))
}
