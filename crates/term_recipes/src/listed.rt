//! Terms of lists.

ghost use Rattle.std.specs.Prelude.{◌≡◌, ◌^◌, ◌<◌, ◌≤◌, length, IfOk, IsTrue};
ghost use Rattle.hl_terms.specs.Translated.{list_term};
ghost use Rattle.simplicity.specs.Arrows.{IsTypedTerm};
ghost use Rattle.simplicity.specs.Tuples.{copies_kind};
ghost use Rattle.simplicityhl.specs.Kinds.{bound_level, is_bound};
ghost use Rattle.type_table.specs.Kinds.{kind_at, Means, IsGrown};
ghost use Rattle.term_core.specs.Terms.{StandsOver, MeansTerm, KeepsRows};
ghost use Rattle.term_recipes.specs.Shapes.{terms_at, AreThere, block_term, in_block};

use crate::joined::add_paired;
use crate::sides::{add_nothing, add_some};
use crate::tuples::add_tuple;
use std::alloc::AllocError;
use term_core::{NodeId, TermTable};
use type_table::{TypeId, TypeTable};

/// The level of a list's bound: 2 ^ (k + 1) has level k.
pub fn list_level(bound: u32) -> u32
    requires { IsTrue (is_bound bound) }
    ensures level { result ≡ bound_level bound }
    ensures few { result < 16 }
{
    match bound {
        2 => 0,
        4 => 1,
        8 => 2,
        16 => 3,
        32 => 4,
        64 => 5,
        128 => 6,
        256 => 7,
        512 => 8,
        1024 => 9,
        2048 => 10,
        4096 => 11,
        8192 => 12,
        16_384 => 13,
        32_768 => 14,
        _ => 15,
    }
}

/// The list of items with a bound, by blocks, on inputs of a type. `item` is the form of the items' type.
pub fn add_list(
    terms: &mut TermTable,
    types: &mut TypeTable,
    source: TypeId,
    item: TypeId,
    bound: u32,
    items: &[NodeId],
) -> Result<NodeId, AllocError>
    requires stands { StandsOver types.old terms.old }
    requires source { source < length types.old }
    requires item { item < length types.old }
    requires bound { IsTrue (is_bound bound) }
    requires items { AreThere terms.old items.now }
    requires typed { IsTypedTerm (list_term (kind_at types.old source) (kind_at types.old item)
        (bound_level bound) (terms_at types.old terms.old items.now)) }
    ensures ok { IfOk result (λ id. MeansTerm types.new terms.new id
        (list_term (kind_at types.old source) (kind_at types.old item)
        (bound_level bound) (terms_at types.old terms.old items.now))) }
    ensures grown { IsGrown types.old types.new }
    ensures kept { KeepsRows terms.old terms.new }
    ensures stands { StandsOver types.new terms.new }
{
    add_blocks(terms, types, source, item, list_level(bound), items)
}

/// The type of 2 ^ level items of a type.
fn block_type(types: &mut TypeTable, item: TypeId, level: u32) -> Result<TypeId, AllocError>
    requires { item < length types.old }
    ensures ok { IfOk result (λ id. Means types.new id (copies_kind (2 ^ level) (kind_at types.old item))) }
    ensures grown { IsGrown types.old types.new }
{
    if level == 0 {
        return Ok(item);
    }
    let half = block_type(types, item, level - 1)?;
    types.product(half, half)
}

/// How many of so many items go into the block of a level.
fn block_size(level: u32, count: usize) -> usize
    requires { level < 16 }
    ensures size { result ≡ in_block level count }
    ensures within { result ≤ count }
{
    let size = 1 << level;
    if count < size {
        return 0;
    }
    size
}

/// The block of a level: none where there are no items, and else all of them.
#[tactic(auto, using(crate::proofs::Later::stands_later))]
fn add_block(
    terms: &mut TermTable,
    types: &mut TypeTable,
    source: TypeId,
    item: TypeId,
    level: u32,
    items: &[NodeId],
) -> Result<NodeId, AllocError>
    requires stands { StandsOver types.old terms.old }
    requires source { source < length types.old }
    requires item { item < length types.old }
    requires items { AreThere terms.old items.now }
    requires typed { IsTypedTerm (block_term (kind_at types.old source) (kind_at types.old item) level
        (terms_at types.old terms.old items.now)) }
    ensures ok { IfOk result (λ id. MeansTerm types.new terms.new id
        (block_term (kind_at types.old source) (kind_at types.old item) level
        (terms_at types.old terms.old items.now))) }
    ensures grown { IsGrown types.old types.new }
    ensures kept { KeepsRows terms.old terms.new }
    ensures stands { StandsOver types.new terms.new }
{
    if items.len() == 0 {
        let block = block_type(types, item, level)?;
        return add_nothing(terms, types, source, block);
    }
    let block = add_tuple(terms, types, source, items)?;
    add_some(terms, types, block)
}

/// The list of a level 0, whose bound is 2: nothing or an item.
fn add_last(
    terms: &mut TermTable,
    types: &mut TypeTable,
    source: TypeId,
    item: TypeId,
    items: &[NodeId],
) -> Result<NodeId, AllocError>
    requires stands { StandsOver types.old terms.old }
    requires source { source < length types.old }
    requires item { item < length types.old }
    requires items { AreThere terms.old items.now }
    ensures ok { IfOk result (λ id. MeansTerm types.new terms.new id
        (list_term (kind_at types.old source) (kind_at types.old item) 0
        (terms_at types.old terms.old items.now))) }
    ensures grown { IsGrown types.old types.new }
    ensures kept { KeepsRows terms.old terms.new }
    ensures stands { StandsOver types.new terms.new }
{
    if items.len() == 0 {
        return add_nothing(terms, types, source, item);
    }
    add_some(terms, types, items[0])
}

/// The list of a level, its blocks from the longest on.
fn add_blocks(
    terms: &mut TermTable,
    types: &mut TypeTable,
    source: TypeId,
    item: TypeId,
    level: u32,
    items: &[NodeId],
) -> Result<NodeId, AllocError>
    requires stands { StandsOver types.old terms.old }
    requires source { source < length types.old }
    requires item { item < length types.old }
    requires few { level < 16 }
    requires items { AreThere terms.old items.now }
    requires typed { IsTypedTerm (list_term (kind_at types.old source) (kind_at types.old item) level
        (terms_at types.old terms.old items.now)) }
    ensures ok { IfOk result (λ id. MeansTerm types.new terms.new id
        (list_term (kind_at types.old source) (kind_at types.old item) level
        (terms_at types.old terms.old items.now))) }
    ensures grown { IsGrown types.old types.new }
    ensures kept { KeepsRows terms.old terms.new }
    ensures stands { StandsOver types.new terms.new }
{
    if level == 0 {
        return add_last(terms, types, source, item, items);
    }
    let (front, back) = items.split_at(block_size(level, items.len()));
    let block = add_block(terms, types, source, item, level, front)?;
    let rest = add_blocks(terms, types, source, item, level - 1, back)?;
    add_paired(terms, types, block, rest)
}
