//! Terms of values and of what comes after them: bound, dropped, matched, called.

ghost use Rattle.std.specs.Prelude.{◌<◌, length, IfOk};
ghost use Rattle.simplicity.specs.Arrows.{IsTypedTerm};
ghost use Rattle.simplicity.specs.Makes as make;
ghost use Rattle.type_table.specs.Kinds.{kind_at, IsGrown};
ghost use Rattle.term_core.specs.Terms.{term_at, StandsOver, MeansTerm, KeepsRows};
ghost use Rattle.term_recipes.specs.Shapes.{beside, bound_in, followed_by, matched};

use std::alloc::AllocError;
use term_core::{NodeId, TermTable};
use term_makers::{add_by_tag, add_comp, add_iden, add_on_second, add_pair, arrow_of};
use type_table::{TypeId, TypeTable};

/// One term and then another, as a call of a term with its arguments.
pub fn add_called(
    terms: &mut TermTable,
    types: &TypeTable,
    arguments: NodeId,
    called: NodeId,
) -> Result<NodeId, AllocError>
    requires stands { StandsOver types.now terms.old }
    requires arguments { arguments < length terms.old }
    requires called { called < length terms.old }
    requires typed { IsTypedTerm
        (make.comp (term_at types.now terms.old arguments) (term_at types.now terms.old called)) }
    ensures ok { IfOk result (λ id. MeansTerm types.now terms.new id
        (make.comp (term_at types.now terms.old arguments) (term_at types.now terms.old called))) }
    ensures kept { KeepsRows terms.old terms.new }
    ensures stands { StandsOver types.now terms.new }
{
    add_comp(terms, types, arguments, called)
}

/// What two terms on one input give, as a pair.
pub fn add_paired(
    terms: &mut TermTable,
    types: &mut TypeTable,
    first: NodeId,
    second: NodeId,
) -> Result<NodeId, AllocError>
    requires stands { StandsOver types.old terms.old }
    requires first { first < length terms.old }
    requires second { second < length terms.old }
    requires typed { IsTypedTerm
        (make.pair (term_at types.old terms.old first) (term_at types.old terms.old second)) }
    ensures ok { IfOk result (λ id. MeansTerm types.new terms.new id
        (make.pair (term_at types.old terms.old first) (term_at types.old terms.old second))) }
    ensures grown { IsGrown types.old types.new }
    ensures kept { KeepsRows terms.old terms.new }
    ensures stands { StandsOver types.new terms.new }
{
    add_pair(terms, types, first, second)
}

/// What two terms on one input give, as a pair, before a third term.
#[tactic(auto, using(term_core::proofs::Growth::standing_stays))]
pub(crate) fn add_beside(
    terms: &mut TermTable,
    types: &mut TypeTable,
    value: NodeId,
    other: NodeId,
    rest: NodeId,
) -> Result<NodeId, AllocError>
    requires stands { StandsOver types.old terms.old }
    requires value { value < length terms.old }
    requires other { other < length terms.old }
    requires rest { rest < length terms.old }
    requires typed { IsTypedTerm (beside (term_at types.old terms.old value)
        (term_at types.old terms.old other) (term_at types.old terms.old rest)) }
    ensures ok { IfOk result (λ id. MeansTerm types.new terms.new id
        (beside (term_at types.old terms.old value) (term_at types.old terms.old other)
        (term_at types.old terms.old rest))) }
    ensures grown { IsGrown types.old types.new }
    ensures kept { KeepsRows terms.old terms.new }
    ensures stands { StandsOver types.new terms.new }
{
    let both = add_paired(terms, types, value, other)?;
    add_called(terms, types, both, rest)
}

/// A value bound before its scope, whose type is `source`, and what comes after it, as a `let`.
pub fn add_bound(
    terms: &mut TermTable,
    types: &mut TypeTable,
    source: TypeId,
    value: NodeId,
    rest: NodeId,
) -> Result<NodeId, AllocError>
    requires stands { StandsOver types.old terms.old }
    requires source { source < length types.old }
    requires value { value < length terms.old }
    requires rest { rest < length terms.old }
    requires typed { IsTypedTerm (bound_in (term_at types.old terms.old value)
        (kind_at types.old source) (term_at types.old terms.old rest)) }
    ensures ok { IfOk result (λ id. MeansTerm types.new terms.new id
        (bound_in (term_at types.old terms.old value) (kind_at types.old source)
        (term_at types.old terms.old rest))) }
    ensures grown { IsGrown types.old types.new }
    ensures kept { KeepsRows terms.old terms.new }
    ensures stands { StandsOver types.new terms.new }
{
    let here = add_iden(terms, types, source)?;
    add_beside(terms, types, value, here, rest)
}

/// A value that is dropped, and what comes after it in the same scope.
pub fn add_followed(
    terms: &mut TermTable,
    types: &mut TypeTable,
    value: NodeId,
    rest: NodeId,
) -> Result<NodeId, AllocError>
    requires stands { StandsOver types.old terms.old }
    requires value { value < length terms.old }
    requires rest { rest < length terms.old }
    requires typed { IsTypedTerm
        (followed_by (term_at types.old terms.old value) (term_at types.old terms.old rest)) }
    ensures ok { IfOk result (λ id. MeansTerm types.new terms.new id
        (followed_by (term_at types.old terms.old value) (term_at types.old terms.old rest))) }
    ensures grown { IsGrown types.old types.new }
    ensures kept { KeepsRows terms.old terms.new }
    ensures stands { StandsOver types.new terms.new }
{
    let (_source, dropped) = arrow_of(terms, types, value);
    let (_source, kind) = arrow_of(terms, types, rest);
    let last = add_iden(terms, types, kind)?;
    let second = add_on_second(terms, types, dropped, last)?;
    add_beside(terms, types, value, rest, second)
}

/// A match of a value in a scope whose type is `source`: `first` where the value has the left tag,
/// `second` where it has the right one, each with what the tag holds bound before the scope.
pub fn add_matched(
    terms: &mut TermTable,
    types: &mut TypeTable,
    source: TypeId,
    value: NodeId,
    left: TypeId,
    right: TypeId,
    first: NodeId,
    second: NodeId,
) -> Result<NodeId, AllocError>
    requires stands { StandsOver types.old terms.old }
    requires source { source < length types.old }
    requires value { value < length terms.old }
    requires left { left < length types.old }
    requires right { right < length types.old }
    requires first { first < length terms.old }
    requires second { second < length terms.old }
    requires typed { IsTypedTerm (matched (term_at types.old terms.old value)
        (kind_at types.old left) (kind_at types.old right) (kind_at types.old source)
        (term_at types.old terms.old first) (term_at types.old terms.old second)) }
    ensures ok { IfOk result (λ id. MeansTerm types.new terms.new id
        (matched (term_at types.old terms.old value)
        (kind_at types.old left) (kind_at types.old right) (kind_at types.old source)
        (term_at types.old terms.old first) (term_at types.old terms.old second))) }
    ensures grown { IsGrown types.old types.new }
    ensures kept { KeepsRows terms.old terms.new }
    ensures stands { StandsOver types.new terms.new }
{
    let arms = add_by_tag(terms, types, left, right, source, first, second)?;
    add_bound(terms, types, source, value, arms)
}
