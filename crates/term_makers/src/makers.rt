//! A call for each way to make a term from others: it adds the row of the term that is made.

ghost use Rattle.std.specs.Prelude.{◌≡◌, ◌<◌, ℕ, length, IfOk};
ghost use Rattle.simplicity.specs.Arrows.{source, target};
ghost use Rattle.simplicity.specs.Makes as make;
ghost use Rattle.simplicity.specs.Types.{Sum, Product};
ghost use Rattle.type_table.specs.Kinds.{kind_at, Means, IsGrown};
ghost use Rattle.term_core.specs.Terms.{term_at, StandsOver, MeansTerm, KeepsRows};
ghost use Rattle.term_makers.specs.Made.{HasArrow};

use std::alloc::AllocError;
use term_core::{Node, NodeId, TermTable};
use type_table::{TypeId, TypeTable};

/// The ids of the source and the target of a term.
pub fn arrow_of(terms: &TermTable, types: &TypeTable, id: NodeId) -> (TypeId, TypeId)
    requires stands { StandsOver types.now terms.now }
    requires within { id < length terms.now }
    ensures { HasArrow types.now terms.now id result.0 result.1 }
{
    let _types = types;
    terms.arrow(id)
}

/// The identity on the values of a type.
pub fn add_iden(
    terms: &mut TermTable,
    types: &TypeTable,
    kind: TypeId,
) -> Result<NodeId, AllocError>
    requires stands { StandsOver types.now terms.old }
    requires kind { kind < length types.now }
    ensures ok { IfOk result (λ id. MeansTerm types.now terms.new id (make.iden (kind_at types.now kind))) }
    ensures kept { KeepsRows terms.old terms.new }
    ensures stands { StandsOver types.now terms.new }
{
    terms.add(Node::Iden, kind, kind, types)
}

/// One term and then another, whose source is the target of the first.
pub fn add_comp(
    terms: &mut TermTable,
    types: &TypeTable,
    first: NodeId,
    second: NodeId,
) -> Result<NodeId, AllocError>
    requires stands { StandsOver types.now terms.old }
    requires first { first < length terms.old }
    requires second { second < length terms.old }
    requires meets { target (term_at types.now terms.old first) ≡ source (term_at types.now terms.old second) }
    ensures ok { IfOk result (λ id. MeansTerm types.now terms.new id
        (make.comp (term_at types.now terms.old first) (term_at types.now terms.old second))) }
    ensures kept { KeepsRows terms.old terms.new }
    ensures stands { StandsOver types.now terms.new }
{
    let (source, _middle) = arrow_of(terms, types, first);
    let (_start, target) = arrow_of(terms, types, second);
    terms.add(Node::Comp(first, second), source, target, types)
}

/// What two terms from one source give, as a pair.
pub fn add_pair(
    terms: &mut TermTable,
    types: &mut TypeTable,
    first: NodeId,
    second: NodeId,
) -> Result<NodeId, AllocError>
    requires stands { StandsOver types.old terms.old }
    requires first { first < length terms.old }
    requires second { second < length terms.old }
    requires meets { source (term_at types.old terms.old second) ≡ source (term_at types.old terms.old first) }
    ensures ok { IfOk result (λ id. MeansTerm types.new terms.new id
        (make.pair (term_at types.old terms.old first) (term_at types.old terms.old second))) }
    ensures grown { IsGrown types.old types.new }
    ensures kept { KeepsRows terms.old terms.new }
    ensures stands { StandsOver types.new terms.new }
{
    let (source, left) = arrow_of(terms, types, first);
    let (_source, right) = arrow_of(terms, types, second);
    let both = types.product(left, right)?;
    terms.add(Node::Pair(first, second), source, both, types)
}

/// The unit value, on the values of a type.
pub fn add_unit(
    terms: &mut TermTable,
    types: &mut TypeTable,
    kind: TypeId,
) -> Result<NodeId, AllocError>
    requires stands { StandsOver types.old terms.old }
    requires kind { kind < length types.old }
    ensures ok { IfOk result (λ id. MeansTerm types.new terms.new id
        (make.unit (kind_at types.old kind))) }
    ensures grown { IsGrown types.old types.new }
    ensures kept { KeepsRows terms.old terms.new }
    ensures stands { StandsOver types.new terms.new }
{
    let one = types.unit()?;
    terms.add(Node::Unit, kind, one, types)
}

/// Failure, from one type to another.
pub fn add_fail(
    terms: &mut TermTable,
    types: &TypeTable,
    source: TypeId,
    target: TypeId,
) -> Result<NodeId, AllocError>
    requires stands { StandsOver types.now terms.old }
    requires source { source < length types.now }
    requires target { target < length types.now }
    ensures ok { IfOk result (λ id. MeansTerm types.now terms.new id
        (make.fail (kind_at types.now source) (kind_at types.now target))) }
    ensures kept { KeepsRows terms.old terms.new }
    ensures stands { StandsOver types.now terms.new }
{
    terms.add(Node::Fail, source, target, types)
}

/// The witness of a number, from one type to another. Each call adds a leaf of its own.
pub fn add_witness(
    terms: &mut TermTable,
    types: &TypeTable,
    number: usize,
    source: TypeId,
    target: TypeId,
) -> Result<NodeId, AllocError>
    requires stands { StandsOver types.now terms.old }
    requires source { source < length types.now }
    requires target { target < length types.now }
    ensures ok { IfOk result (λ id. MeansTerm types.now terms.new id
        (make.witness (kind_at types.now source) (kind_at types.now target) number)) }
    ensures kept { KeepsRows terms.old terms.new }
    ensures stands { StandsOver types.now terms.new }
{
    terms.add(Node::Witness(number), source, target, types)
}

/// A term on the first part of a pair, whose second part is of a type.
pub fn add_on_first(
    terms: &mut TermTable,
    types: &mut TypeTable,
    other: TypeId,
    term: NodeId,
) -> Result<NodeId, AllocError>
    requires stands { StandsOver types.old terms.old }
    requires other { other < length types.old }
    requires term { term < length terms.old }
    ensures ok { IfOk result (λ id. MeansTerm types.new terms.new id
        (make.on_first (kind_at types.old other) (term_at types.old terms.old term))) }
    ensures grown { IsGrown types.old types.new }
    ensures kept { KeepsRows terms.old terms.new }
    ensures stands { StandsOver types.new terms.new }
{
    let (source, target) = arrow_of(terms, types, term);
    let both = types.product(source, other)?;
    terms.add(Node::Take(term), both, target, types)
}

/// A term on the second part of a pair, whose first part is of a type.
pub fn add_on_second(
    terms: &mut TermTable,
    types: &mut TypeTable,
    other: TypeId,
    term: NodeId,
) -> Result<NodeId, AllocError>
    requires stands { StandsOver types.old terms.old }
    requires other { other < length types.old }
    requires term { term < length terms.old }
    ensures ok { IfOk result (λ id. MeansTerm types.new terms.new id
        (make.on_second (kind_at types.old other) (term_at types.old terms.old term))) }
    ensures grown { IsGrown types.old types.new }
    ensures kept { KeepsRows terms.old terms.new }
    ensures stands { StandsOver types.new terms.new }
{
    let (source, target) = arrow_of(terms, types, term);
    let both = types.product(other, source)?;
    terms.add(Node::Drop(term), both, target, types)
}

/// What a term gives, as the left of a sum whose right is of a type.
pub fn add_to_left(
    terms: &mut TermTable,
    types: &mut TypeTable,
    other: TypeId,
    term: NodeId,
) -> Result<NodeId, AllocError>
    requires stands { StandsOver types.old terms.old }
    requires other { other < length types.old }
    requires term { term < length terms.old }
    ensures ok { IfOk result (λ id. MeansTerm types.new terms.new id
        (make.to_left (kind_at types.old other) (term_at types.old terms.old term))) }
    ensures grown { IsGrown types.old types.new }
    ensures kept { KeepsRows terms.old terms.new }
    ensures stands { StandsOver types.new terms.new }
{
    let (source, target) = arrow_of(terms, types, term);
    let either = types.sum(target, other)?;
    terms.add(Node::Injl(term), source, either, types)
}

/// What a term gives, as the right of a sum whose left is of a type.
pub fn add_to_right(
    terms: &mut TermTable,
    types: &mut TypeTable,
    other: TypeId,
    term: NodeId,
) -> Result<NodeId, AllocError>
    requires stands { StandsOver types.old terms.old }
    requires other { other < length types.old }
    requires term { term < length terms.old }
    ensures ok { IfOk result (λ id. MeansTerm types.new terms.new id
        (make.to_right (kind_at types.old other) (term_at types.old terms.old term))) }
    ensures grown { IsGrown types.old types.new }
    ensures kept { KeepsRows terms.old terms.new }
    ensures stands { StandsOver types.new terms.new }
{
    let (source, target) = arrow_of(terms, types, term);
    let either = types.sum(other, target)?;
    terms.add(Node::Injr(term), source, either, types)
}

/// The type of the pairs of a value of either of two types and a value of a third.
fn tagged_type(
    types: &mut TypeTable,
    left: TypeId,
    right: TypeId,
    rest: TypeId,
) -> Result<TypeId, AllocError>
    requires left { left < length types.old }
    requires right { right < length types.old }
    requires rest { rest < length types.old }
    ensures ok { IfOk result (λ id. Means types.new id
        (Product (Sum (kind_at types.old left) (kind_at types.old right)) (kind_at types.old rest))) }
    ensures grown { IsGrown types.old types.new }
{
    let either = types.sum(left, right)?;
    types.product(either, rest)
}

/// One term or another, by the tag of the first part of a pair. The first goes on with a value of
/// `left`, the second with one of `right`, each beside the rest of the pair.
pub fn add_by_tag(
    terms: &mut TermTable,
    types: &mut TypeTable,
    left: TypeId,
    right: TypeId,
    rest: TypeId,
    first: NodeId,
    second: NodeId,
) -> Result<NodeId, AllocError>
    requires stands { StandsOver types.old terms.old }
    requires left { left < length types.old }
    requires right { right < length types.old }
    requires rest { rest < length types.old }
    requires first { first < length terms.old }
    requires second { second < length terms.old }
    requires from_left { source (term_at types.old terms.old first)
        ≡ Product (kind_at types.old left) (kind_at types.old rest) }
    requires from_right { source (term_at types.old terms.old second)
        ≡ Product (kind_at types.old right) (kind_at types.old rest) }
    requires meets { target (term_at types.old terms.old second) ≡ target (term_at types.old terms.old first) }
    ensures ok { IfOk result (λ id. MeansTerm types.new terms.new id
        (make.by_tag (kind_at types.old left) (kind_at types.old right) (kind_at types.old rest)
        (term_at types.old terms.old first) (term_at types.old terms.old second))) }
    ensures grown { IsGrown types.old types.new }
    ensures kept { KeepsRows terms.old terms.new }
    ensures stands { StandsOver types.new terms.new }
{
    let (_source, target) = arrow_of(terms, types, first);
    let tagged = tagged_type(types, left, right, rest)?;
    terms.add(Node::Case(first, second), tagged, target, types)
}

/// A term on the left of a tagged pair alone; the other side is hidden, and fails. `hidden` is the
/// root of failure.
pub fn add_only_left(
    terms: &mut TermTable,
    types: &mut TypeTable,
    left: TypeId,
    right: TypeId,
    rest: TypeId,
    term: NodeId,
    hidden: [u8; 32],
) -> Result<NodeId, AllocError>
    requires stands { StandsOver types.old terms.old }
    requires left { left < length types.old }
    requires right { right < length types.old }
    requires rest { rest < length types.old }
    requires term { term < length terms.old }
    requires from { source (term_at types.old terms.old term)
        ≡ Product (kind_at types.old left) (kind_at types.old rest) }
    requires hidden { hidden ≡ make.fail_root }
    ensures ok { IfOk result (λ id. MeansTerm types.new terms.new id
        (make.only_left (kind_at types.old left) (kind_at types.old right) (kind_at types.old rest)
        (term_at types.old terms.old term))) }
    ensures grown { IsGrown types.old types.new }
    ensures kept { KeepsRows terms.old terms.new }
    ensures stands { StandsOver types.new terms.new }
{
    let (_source, target) = arrow_of(terms, types, term);
    let tagged = tagged_type(types, left, right, rest)?;
    terms.add(Node::AssertL(term, hidden), tagged, target, types)
}

/// A term on the right of a tagged pair alone; the other side is hidden, and fails. `hidden` is the
/// root of failure.
pub fn add_only_right(
    terms: &mut TermTable,
    types: &mut TypeTable,
    left: TypeId,
    right: TypeId,
    rest: TypeId,
    term: NodeId,
    hidden: [u8; 32],
) -> Result<NodeId, AllocError>
    requires stands { StandsOver types.old terms.old }
    requires left { left < length types.old }
    requires right { right < length types.old }
    requires rest { rest < length types.old }
    requires term { term < length terms.old }
    requires from { source (term_at types.old terms.old term)
        ≡ Product (kind_at types.old right) (kind_at types.old rest) }
    requires hidden { hidden ≡ make.fail_root }
    ensures ok { IfOk result (λ id. MeansTerm types.new terms.new id
        (make.only_right (kind_at types.old left) (kind_at types.old right) (kind_at types.old rest)
        (term_at types.old terms.old term))) }
    ensures grown { IsGrown types.old types.new }
    ensures kept { KeepsRows terms.old terms.new }
    ensures stands { StandsOver types.new terms.new }
{
    let (_source, target) = arrow_of(terms, types, term);
    let tagged = tagged_type(types, left, right, rest)?;
    terms.add(Node::AssertR(hidden, term), tagged, target, types)
}
