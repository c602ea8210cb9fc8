//! Terms that lead from an input to a part of it.

ghost use Rattle.std.specs.Prelude.{◌<◌, length, map, IfOk};
ghost use Rattle.hl_terms.specs.Paths.{path_term};
ghost use Rattle.layout_laws.specs.Scopes.{step_of};
ghost use Rattle.simplicity.specs.Makes.{first_of, second_of};
ghost use Rattle.type_table.specs.Kinds.{kind_at, Means, IsGrown};
ghost use Rattle.term_core.specs.Terms.{term_at, StandsOver, MeansTerm, KeepsRows};
ghost use Rattle.term_recipes.specs.Shapes.{along, end_of, on_part, part_at};

use scope_layout::{Path, Step};
use std::alloc::AllocError;
use term_core::{NodeId, TermTable};
use term_makers::{add_iden, add_on_first, add_on_second};
use type_table::{Shape, TypeId, TypeTable};

/// The term of a path from a type.
#[tactic(auto, using(crate::proofs::Later::stands_later))]
pub fn add_path(
    terms: &mut TermTable,
    types: &mut TypeTable,
    source: TypeId,
    path: &Path,
) -> Result<NodeId, AllocError>
    requires stands { StandsOver types.old terms.old }
    requires source { source < length types.old }
    ensures ok { IfOk result (λ id. MeansTerm types.new terms.new id
        (path_term (kind_at types.old source) (map step_of path.now))) }
    ensures grown { IsGrown types.old types.new }
    ensures kept { KeepsRows terms.old terms.new }
    ensures stands { StandsOver types.new terms.new }
{
    let end = type_at_end(types, source, path.as_slice())?;
    let here = add_iden(terms, types, end)?;
    add_along(terms, types, source, path.as_slice(), here)
}

/// The parts of a type of pairs; the unit type twice where it is none.
fn parts_of(types: &mut TypeTable, kind: TypeId) -> Result<(TypeId, TypeId), AllocError>
    requires { kind < length types.old }
    ensures first { IfOk result (λ ids. Means types.new ids.0 (first_of (kind_at types.old kind))) }
    ensures second { IfOk result (λ ids. Means types.new ids.1 (second_of (kind_at types.old kind))) }
    ensures grown { IsGrown types.old types.new }
{
    match types.shape(kind) {
        Shape::Product(first, second) => Ok((first, second)),
        Shape::One | Shape::Sum(_, _) => {
            let one = types.unit()?;
            Ok((one, one))
        }
    }
}

/// The part of a type that a step leads to.
fn next_type(types: &mut TypeTable, kind: TypeId, step: Step) -> Result<TypeId, AllocError>
    requires { kind < length types.old }
    ensures ok { IfOk result (λ id. Means types.new id (part_at (kind_at types.old kind) (step_of step))) }
    ensures grown { IsGrown types.old types.new }
{
    let (first, second) = parts_of(types, kind)?;
    match step {
        Step::Take => Ok(first),
        Step::Drop => Ok(second),
    }
}

/// The part of a type that steps lead to.
fn type_at_end(types: &mut TypeTable, source: TypeId, steps: &[Step]) -> Result<TypeId, AllocError>
    requires { source < length types.old }
    ensures ok { IfOk result (λ id.
        Means types.new id (end_of (kind_at types.old source) (map step_of steps.now))) }
    ensures grown { IsGrown types.old types.new }
{
    let mut kind = source;
    'steps: for step in steps {
        kind = next_type(types, kind, *step)?;
    }
    Ok(kind)
}

/// A term on the part of a type that a step leads to.
#[tactic(auto, using(crate::proofs::Later::stands_later))]
fn add_on_part(
    terms: &mut TermTable,
    types: &mut TypeTable,
    source: TypeId,
    step: Step,
    term: NodeId,
) -> Result<NodeId, AllocError>
    requires stands { StandsOver types.old terms.old }
    requires source { source < length types.old }
    requires term { term < length terms.old }
    ensures ok { IfOk result (λ id. MeansTerm types.new terms.new id
        (on_part (kind_at types.old source) (step_of step) (term_at types.old terms.old term))) }
    ensures grown { IsGrown types.old types.new }
    ensures kept { KeepsRows terms.old terms.new }
    ensures stands { StandsOver types.new terms.new }
{
    let (first, second) = parts_of(types, source)?;
    match step {
        Step::Take => add_on_first(terms, types, second, term),
        Step::Drop => add_on_second(terms, types, first, term),
    }
}

/// A term on the part of a type that steps lead to. The steps are halved, so that a long path takes
/// little stack.
#[tactic(auto, using(crate::proofs::Later::stands_later))]
fn add_along(
    terms: &mut TermTable,
    types: &mut TypeTable,
    source: TypeId,
    steps: &[Step],
    term: NodeId,
) -> Result<NodeId, AllocError>
    requires stands { StandsOver types.old terms.old }
    requires source { source < length types.old }
    requires term { term < length terms.old }
    ensures ok { IfOk result (λ id. MeansTerm types.new terms.new id
        (along (kind_at types.old source) (map step_of steps.now) (term_at types.old terms.old term))) }
    ensures grown { IsGrown types.old types.new }
    ensures kept { KeepsRows terms.old terms.new }
    ensures stands { StandsOver types.new terms.new }
{
    if steps.len() == 0 {
        return Ok(term);
    }
    if steps.len() == 1 {
        return add_on_part(terms, types, source, steps[0], term);
    }
    let (front, back) = steps.split_at(steps.len() / 2);
    let middle = type_at_end(types, source, front)?;
    let inner = add_along(terms, types, middle, back, term)?;
    add_along(terms, types, source, front, inner)
}
