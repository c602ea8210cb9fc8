//! Terms of options.

ghost use Rattle.std.specs.Prelude.{◌<◌, length, IfOk};
ghost use Rattle.simplicity.specs.Makes as make;
ghost use Rattle.simplicity.specs.Types.{One};
ghost use Rattle.type_table.specs.Kinds.{kind_at, IsGrown};
ghost use Rattle.term_core.specs.Terms.{term_at, StandsOver, MeansTerm, KeepsRows};

use std::alloc::AllocError;
use term_core::{NodeId, TermTable};
use term_makers::{add_to_left, add_to_right, add_unit};
use type_table::{TypeId, TypeTable};

/// `None` of an item, on inputs of a type.
pub fn add_nothing(
    terms: &mut TermTable,
    types: &mut TypeTable,
    source: TypeId,
    item: TypeId,
) -> Result<NodeId, AllocError>
    requires stands { StandsOver types.old terms.old }
    requires source { source < length types.old }
    requires item { item < length types.old }
    ensures ok { IfOk result (λ id. MeansTerm types.new terms.new id
        (make.to_left (kind_at types.old item) (make.unit (kind_at types.old source)))) }
    ensures grown { IsGrown types.old types.new }
    ensures kept { KeepsRows terms.old terms.new }
    ensures stands { StandsOver types.new terms.new }
{
    let unit = add_unit(terms, types, source)?;
    add_to_left(terms, types, item, unit)
}

/// `Some` of what a term gives.
#[tactic(auto, using(crate::proofs::Later::stands_later))]
pub fn add_some(
    terms: &mut TermTable,
    types: &mut TypeTable,
    part: NodeId,
) -> Result<NodeId, AllocError>
    requires stands { StandsOver types.old terms.old }
    requires part { part < length terms.old }
    ensures ok { IfOk result (λ id. MeansTerm types.new terms.new id
        (make.to_right One (term_at types.old terms.old part))) }
    ensures grown { IsGrown types.old types.new }
    ensures kept { KeepsRows terms.old terms.new }
    ensures stands { StandsOver types.new terms.new }
{
    let one = types.unit()?;
    add_to_right(terms, types, one, part)
}
