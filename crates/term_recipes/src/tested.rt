//! Terms of tests of a value's tag. Each is on inputs of a type `source`, as the term of the value is.

ghost use Rattle.std.specs.Prelude.{◌≡◌, ◌<◌, length, IfOk};
ghost use Rattle.hl_terms.specs.Translated.{asserted, none_tested, unwrapped_left, unwrapped_right};
ghost use Rattle.simplicity.specs.Arrows.{IsTypedTerm};
ghost use Rattle.simplicity.specs.Makes as make;
ghost use Rattle.simplicity.specs.Types.{One, Product};
ghost use Rattle.type_table.specs.Kinds.{kind_at, Means, IsGrown};
ghost use Rattle.term_core.specs.Terms.{term_at, StandsOver, MeansTerm, KeepsRows};
ghost use Rattle.term_recipes.specs.Shapes.{tested_by, true_alone, held, left_alone, right_alone, none_test};

use crate::joined::add_beside;
use crate::words::{add_false, add_true};
use std::alloc::AllocError;
use term_core::{NodeId, TermTable};
use term_makers::{add_by_tag, add_iden, add_on_first, add_only_left, add_only_right, add_unit};
use type_table::{TypeId, TypeTable};

/// The unit value where a truth value is true, and failure where it is false. `hidden` is the root of
/// failure, here and below.
pub fn add_asserted(
    terms: &mut TermTable,
    types: &mut TypeTable,
    source: TypeId,
    value: NodeId,
    hidden: [u8; 32],
) -> Result<NodeId, AllocError>
    requires stands { StandsOver types.old terms.old }
    requires source { source < length types.old }
    requires value { value < length terms.old }
    requires hidden { hidden ≡ make.fail_root }
    requires typed { IsTypedTerm (asserted (term_at types.old terms.old value) (kind_at types.old source)) }
    ensures ok { IfOk result (λ id. MeansTerm types.new terms.new id
        (asserted (term_at types.old terms.old value) (kind_at types.old source))) }
    ensures grown { IsGrown types.old types.new }
    ensures kept { KeepsRows terms.old terms.new }
    ensures stands { StandsOver types.new terms.new }
{
    let test = add_assertion(terms, types, hidden)?;
    add_tested(terms, types, source, value, test)
}

/// What a value of the types `left` and `right` holds at its left tag; failure at the other.
pub fn add_unwrapped_left(
    terms: &mut TermTable,
    types: &mut TypeTable,
    source: TypeId,
    left: TypeId,
    right: TypeId,
    value: NodeId,
    hidden: [u8; 32],
) -> Result<NodeId, AllocError>
    requires stands { StandsOver types.old terms.old }
    requires source { source < length types.old }
    requires left { left < length types.old }
    requires right { right < length types.old }
    requires value { value < length terms.old }
    requires hidden { hidden ≡ make.fail_root }
    requires typed { IsTypedTerm (unwrapped_left (kind_at types.old left) (kind_at types.old right)
        (term_at types.old terms.old value) (kind_at types.old source)) }
    ensures ok { IfOk result (λ id. MeansTerm types.new terms.new id
        (unwrapped_left (kind_at types.old left) (kind_at types.old right)
        (term_at types.old terms.old value) (kind_at types.old source))) }
    ensures grown { IsGrown types.old types.new }
    ensures kept { KeepsRows terms.old terms.new }
    ensures stands { StandsOver types.new terms.new }
{
    let test = add_left_alone(terms, types, left, right, hidden)?;
    add_tested(terms, types, source, value, test)
}

/// What a value of the types `left` and `right` holds at its right tag; failure at the other. An option
/// is such a value, with the unit type on the left.
pub fn add_unwrapped_right(
    terms: &mut TermTable,
    types: &mut TypeTable,
    source: TypeId,
    left: TypeId,
    right: TypeId,
    value: NodeId,
    hidden: [u8; 32],
) -> Result<NodeId, AllocError>
    requires stands { StandsOver types.old terms.old }
    requires source { source < length types.old }
    requires left { left < length types.old }
    requires right { right < length types.old }
    requires value { value < length terms.old }
    requires hidden { hidden ≡ make.fail_root }
    requires typed { IsTypedTerm (unwrapped_right (kind_at types.old left) (kind_at types.old right)
        (term_at types.old terms.old value) (kind_at types.old source)) }
    ensures ok { IfOk result (λ id. MeansTerm types.new terms.new id
        (unwrapped_right (kind_at types.old left) (kind_at types.old right)
        (term_at types.old terms.old value) (kind_at types.old source))) }
    ensures grown { IsGrown types.old types.new }
    ensures kept { KeepsRows terms.old terms.new }
    ensures stands { StandsOver types.new terms.new }
{
    let test = add_right_alone(terms, types, left, right, hidden)?;
    add_tested(terms, types, source, value, test)
}

/// Whether an option of an item holds nothing.
pub fn add_none_tested(
    terms: &mut TermTable,
    types: &mut TypeTable,
    source: TypeId,
    item: TypeId,
    value: NodeId,
) -> Result<NodeId, AllocError>
    requires stands { StandsOver types.old terms.old }
    requires source { source < length types.old }
    requires item { item < length types.old }
    requires value { value < length terms.old }
    requires typed { IsTypedTerm (none_tested (kind_at types.old item)
        (term_at types.old terms.old value) (kind_at types.old source)) }
    ensures ok { IfOk result (λ id. MeansTerm types.new terms.new id
        (none_tested (kind_at types.old item) (term_at types.old terms.old value) (kind_at types.old source))) }
    ensures grown { IsGrown types.old types.new }
    ensures kept { KeepsRows terms.old terms.new }
    ensures stands { StandsOver types.new terms.new }
{
    let test = add_none_test(terms, types, item)?;
    add_tested(terms, types, source, value, test)
}

/// A term beside the unit value, before a test of the two.
#[tactic(auto, using(crate::proofs::Later::stands_later))]
fn add_tested(
    terms: &mut TermTable,
    types: &mut TypeTable,
    source: TypeId,
    value: NodeId,
    test: NodeId,
) -> Result<NodeId, AllocError>
    requires stands { StandsOver types.old terms.old }
    requires source { source < length types.old }
    requires value { value < length terms.old }
    requires test { test < length terms.old }
    requires typed { IsTypedTerm (tested_by (term_at types.old terms.old value)
        (kind_at types.old source) (term_at types.old terms.old test)) }
    ensures ok { IfOk result (λ id. MeansTerm types.new terms.new id
        (tested_by (term_at types.old terms.old value) (kind_at types.old source)
        (term_at types.old terms.old test))) }
    ensures grown { IsGrown types.old types.new }
    ensures kept { KeepsRows terms.old terms.new }
    ensures stands { StandsOver types.new terms.new }
{
    let unit = add_unit(terms, types, source)?;
    add_beside(terms, types, value, unit, test)
}

/// The unit type, and the type of pairs of its value.
#[tactic(auto, using(crate::proofs::Later::stands_later))]
fn unit_types(types: &mut TypeTable) -> Result<(TypeId, TypeId), AllocError>
    ensures one { IfOk result (λ ids. Means types.new ids.0 One) }
    ensures both { IfOk result (λ ids. Means types.new ids.1 (Product One One)) }
    ensures grown { IsGrown types.old types.new }
{
    let one = types.unit()?;
    let both = types.product(one, one)?;
    Ok((one, both))
}

/// The test that a truth value is true.
#[tactic(auto, using(crate::proofs::Later::stands_later))]
fn add_assertion(
    terms: &mut TermTable,
    types: &mut TypeTable,
    hidden: [u8; 32],
) -> Result<NodeId, AllocError>
    requires stands { StandsOver types.old terms.old }
    requires hidden { hidden ≡ make.fail_root }
    ensures ok { IfOk result (λ id. MeansTerm types.new terms.new id true_alone) }
    ensures grown { IsGrown types.old types.new }
    ensures kept { KeepsRows terms.old terms.new }
    ensures stands { StandsOver types.new terms.new }
{
    let (one, both) = unit_types(types)?;
    let unit = add_unit(terms, types, both)?;
    add_only_right(terms, types, one, one, one, unit, hidden)
}

/// What the left tag holds; failure at the other.
#[tactic(auto, using(crate::proofs::Later::stands_later))]
fn add_left_alone(
    terms: &mut TermTable,
    types: &mut TypeTable,
    left: TypeId,
    right: TypeId,
    hidden: [u8; 32],
) -> Result<NodeId, AllocError>
    requires stands { StandsOver types.old terms.old }
    requires left { left < length types.old }
    requires right { right < length types.old }
    requires hidden { hidden ≡ make.fail_root }
    ensures ok { IfOk result (λ id. MeansTerm types.new terms.new id
        (left_alone (kind_at types.old left) (kind_at types.old right))) }
    ensures grown { IsGrown types.old types.new }
    ensures kept { KeepsRows terms.old terms.new }
    ensures stands { StandsOver types.new terms.new }
{
    let first = add_held(terms, types, left)?;
    let one = types.unit()?;
    add_only_left(terms, types, left, right, one, first, hidden)
}

/// What the right tag holds; failure at the other.
#[tactic(auto, using(crate::proofs::Later::stands_later))]
fn add_right_alone(
    terms: &mut TermTable,
    types: &mut TypeTable,
    left: TypeId,
    right: TypeId,
    hidden: [u8; 32],
) -> Result<NodeId, AllocError>
    requires stands { StandsOver types.old terms.old }
    requires left { left < length types.old }
    requires right { right < length types.old }
    requires hidden { hidden ≡ make.fail_root }
    ensures ok { IfOk result (λ id. MeansTerm types.new terms.new id
        (right_alone (kind_at types.old left) (kind_at types.old right))) }
    ensures grown { IsGrown types.old types.new }
    ensures kept { KeepsRows terms.old terms.new }
    ensures stands { StandsOver types.new terms.new }
{
    let first = add_held(terms, types, right)?;
    let one = types.unit()?;
    add_only_right(terms, types, left, right, one, first, hidden)
}

/// What a tag holds, beside the unit value.
#[tactic(auto, using(crate::proofs::Later::stands_later))]
fn add_held(
    terms: &mut TermTable,
    types: &mut TypeTable,
    kind: TypeId,
) -> Result<NodeId, AllocError>
    requires stands { StandsOver types.old terms.old }
    requires kind { kind < length types.old }
    ensures ok { IfOk result (λ id. MeansTerm types.new terms.new id (held (kind_at types.old kind))) }
    ensures grown { IsGrown types.old types.new }
    ensures kept { KeepsRows terms.old terms.new }
    ensures stands { StandsOver types.new terms.new }
{
    let one = types.unit()?;
    let here = add_iden(terms, types, kind)?;
    add_on_first(terms, types, one, here)
}

/// The unit type, and the types of the pairs of its value and of an item with the unit value.
#[tactic(auto, using(crate::proofs::Later::stands_later))]
fn option_types(types: &mut TypeTable, item: TypeId) -> Result<(TypeId, TypeId, TypeId), AllocError>
    requires { item < length types.old }
    ensures one { IfOk result (λ ids. Means types.new ids.0 One) }
    ensures nothing { IfOk result (λ ids. Means types.new ids.1 (Product One One)) }
    ensures some { IfOk result (λ ids. Means types.new ids.2 (Product (kind_at types.old item) One)) }
    ensures grown { IsGrown types.old types.new }
{
    let (one, nothing) = unit_types(types)?;
    let some = types.product(item, one)?;
    Ok((one, nothing, some))
}

/// The test that an option holds nothing.
#[tactic(auto, using(crate::proofs::Later::stands_later))]
fn add_none_test(
    terms: &mut TermTable,
    types: &mut TypeTable,
    item: TypeId,
) -> Result<NodeId, AllocError>
    requires stands { StandsOver types.old terms.old }
    requires item { item < length types.old }
    ensures ok { IfOk result (λ id. MeansTerm types.new terms.new id (none_test (kind_at types.old item))) }
    ensures grown { IsGrown types.old types.new }
    ensures kept { KeepsRows terms.old terms.new }
    ensures stands { StandsOver types.new terms.new }
{
    let (one, nothing, some) = option_types(types, item)?;
    let yes = add_true(terms, types, nothing)?;
    let no = add_false(terms, types, some)?;
    add_by_tag(terms, types, one, item, one, yes, no)
}
