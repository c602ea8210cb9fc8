//! Terms of tuples.

ghost use Rattle.std.specs.Prelude.{◌<◌, length, IfOk};
ghost use Rattle.simplicity.specs.Arrows.{IsTypedTerm};
ghost use Rattle.simplicity.specs.Makes as make;
ghost use Rattle.type_table.specs.Kinds.{kind_at, IsGrown};
ghost use Rattle.term_core.specs.Terms.{StandsOver, MeansTerm, KeepsRows};
ghost use Rattle.term_recipes.specs.Shapes.{terms_at, AreThere};

use crate::joined::add_paired;
use std::alloc::AllocError;
use term_core::{NodeId, TermTable};
use term_makers::add_unit;
use type_table::{TypeId, TypeTable};

/// The tuple of parts, or the array of items, by halves, on inputs of a type.
pub fn add_tuple(
    terms: &mut TermTable,
    types: &mut TypeTable,
    source: TypeId,
    parts: &[NodeId],
) -> Result<NodeId, AllocError>
    requires stands { StandsOver types.old terms.old }
    requires source { source < length types.old }
    requires parts { AreThere terms.old parts.now }
    requires typed { IsTypedTerm
        (make.tuple (kind_at types.old source) (terms_at types.old terms.old parts.now)) }
    ensures ok { IfOk result (λ id. MeansTerm types.new terms.new id
        (make.tuple (kind_at types.old source) (terms_at types.old terms.old parts.now))) }
    ensures grown { IsGrown types.old types.new }
    ensures kept { KeepsRows terms.old terms.new }
    ensures stands { StandsOver types.new terms.new }
{
    if parts.len() == 0 {
        return add_unit(terms, types, source);
    }
    if parts.len() == 1 {
        return Ok(parts[0]);
    }
    let (front, back) = parts.split_at(parts.len() / 2);
    let first = add_tuple(terms, types, source, front)?;
    let rest = add_tuple(terms, types, source, back)?;
    add_paired(terms, types, first, rest)
}
