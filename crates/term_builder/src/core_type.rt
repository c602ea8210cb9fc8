//! Core types as constructs of the language name them.

ghost use Rattle.std.specs.Prelude.{IfOk};
ghost use Rattle.term_builder.specs.Steps.{kind_of_core, IsSoundCore};
ghost use Rattle.type_table.specs.Kinds.{Means, IsGrown};

use hl_syntax::HlType;
use hl_types::structure;
use std::alloc::{AllocError, Global};
use type_table::{TypeId, TypeTable};

/// A core type: that of one value, or the form of a type of the language.
#[derive(Clone, Copy)]
pub enum CoreType<'a> {
    Unit,
    Form(&'a HlType),
}

/// The id of a core type.
pub(crate) fn core_id(
    alloc: Global,
    core: CoreType,
    types: &mut TypeTable,
) -> Result<TypeId, AllocError>
    requires { IsSoundCore core }
    ensures ok { IfOk result (λ id. Means types.new id (kind_of_core core.entry)) }
    ensures grown { IsGrown types.old types.new }
{
    match core {
        CoreType::Unit => types.unit(),
        CoreType::Form(kind) => structure(alloc, kind, types),
    }
}
