//! Terms of values that are given, each on inputs of a type `source`.

ghost use Rattle.std.specs.Prelude.{◌<◌, length, map, IfOk, IsSome, IsTrue};
ghost use Rattle.std.specs.List.{list_all};
ghost use Rattle.hl_meaning.specs.Entries.{IsValueOf};
ghost use Rattle.hl_meaning.specs.Values.{at_all, at_each, encoded};
ghost use Rattle.hl_terms.specs.Translated.{all_values, each_value, value_term};
ghost use Rattle.simplicityhl.specs.Kinds.{is_sound, IsSound};
ghost use Rattle.type_table.specs.Kinds.{kind_at, IsGrown};
ghost use Rattle.term_core.specs.Terms.{StandsOver, MeansTerm, KeepsRows};
ghost use Rattle.value_recipes.specs.Made.{AreMade};

use hl_data::{HlValue, HlValues};
use hl_syntax::{HlType, HlTypes};
use hl_types::structure;
use std::alloc::{AllocError, Global};
use term_core::{NodeId, TermTable};
use term_makers::{add_to_left, add_to_right};
use term_recipes::{
    add_false, add_list, add_nothing, add_some, add_true, add_tuple, add_word_value,
};
use type_table::{TypeId, TypeTable};

/// Each value at the type at its place.
#[cycle(values)]
#[tactic(auto, using(term_recipes::proofs::Later::stands_later))]
fn add_parts(
    alloc: Global,
    terms: &mut TermTable,
    types: &mut TypeTable,
    source: TypeId,
    parts: &HlValues,
    kinds: &HlTypes,
) -> Result<Vec<NodeId>, AllocError>
    requires stands { StandsOver types.old terms.old }
    requires source { source < length types.old }
    requires sound { IsTrue (list_all (λ kind. kind) (map is_sound kinds.now)) }
    requires there { IsSome (at_each (map encoded parts.now) kinds.now) }
    ensures ok { IfOk result (λ ids. AreMade types.new terms.new ids.items
        (each_value (map value_term parts.now) kinds.now (kind_at types.old source))) }
    ensures grown { IsGrown types.old types.new }
    ensures kept { KeepsRows terms.old terms.new }
    ensures stands { StandsOver types.new terms.new }
{
    let mut ids = Vec::new(alloc);
    'parts: for (place, part) in parts.as_slice().iter().enumerate() {
        let id = add_value(alloc, terms, types, source, part, kinds.get(place))?;
        ids.push(id)?;
    }
    Ok(ids)
}

/// Each value at one type.
#[cycle(values)]
#[tactic(auto, using(term_recipes::proofs::Later::stands_later))]
fn add_items(
    alloc: Global,
    terms: &mut TermTable,
    types: &mut TypeTable,
    source: TypeId,
    items: &HlValues,
    kind: &HlType,
) -> Result<Vec<NodeId>, AllocError>
    requires stands { StandsOver types.old terms.old }
    requires source { source < length types.old }
    requires sound { IsSound kind.now }
    requires there { IsSome (at_all (map encoded items.now) kind.now) }
    ensures ok { IfOk result (λ ids. AreMade types.new terms.new ids.items
        (all_values (map value_term items.now) kind.now (kind_at types.old source))) }
    ensures grown { IsGrown types.old types.new }
    ensures kept { KeepsRows terms.old terms.new }
    ensures stands { StandsOver types.new terms.new }
{
    let mut ids = Vec::new(alloc);
    'items: for item in items.as_slice() {
        let id = add_value(alloc, terms, types, source, item, kind)?;
        ids.push(id)?;
    }
    Ok(ids)
}

/// The term of a value at its type.
#[cycle(values)]
#[tactic(auto, using(term_recipes::proofs::Later::stands_later))]
pub fn add_value(
    alloc: Global,
    terms: &mut TermTable,
    types: &mut TypeTable,
    source: TypeId,
    value: &HlValue,
    kind: &HlType,
) -> Result<NodeId, AllocError>
    requires stands { StandsOver types.old terms.old }
    requires source { source < length types.old }
    requires sound { IsSound kind.now }
    requires of_kind { IsValueOf value.now kind.now }
    ensures ok { IfOk result (λ id. MeansTerm types.new terms.new id
        (value_term value.now kind.now (kind_at types.old source))) }
    ensures grown { IsGrown types.old types.new }
    ensures kept { KeepsRows terms.old terms.new }
    ensures stands { StandsOver types.new terms.new }
{
    match value {
        HlValue::Bool(false) => add_false(terms, types, source),
        HlValue::Bool(true) => add_true(terms, types, source),
        HlValue::Number(word) => add_word_value(terms, types, source, *word),
        HlValue::Tuple(parts) => {
            let HlType::Tuple(kinds) = kind else {
                unreachable!()
            };
            let ids = add_parts(alloc, terms, types, source, parts, kinds)?;
            add_tuple(terms, types, source, ids.as_slice())
        }
        HlValue::Array(items) => {
            let HlType::Array(item, _) = kind else {
                unreachable!()
            };
            let ids = add_items(alloc, terms, types, source, items, item.get())?;
            add_tuple(terms, types, source, ids.as_slice())
        }
        HlValue::List(items) => {
            let HlType::List(item, bound) = kind else {
                unreachable!()
            };
            let form = structure(alloc, item.get(), types)?;
            let ids = add_items(alloc, terms, types, source, items, item.get())?;
            add_list(terms, types, source, form, *bound, ids.as_slice())
        }
        HlValue::Nothing => {
            let HlType::Option(item) = kind else {
                unreachable!()
            };
            let form = structure(alloc, item.get(), types)?;
            add_nothing(terms, types, source, form)
        }
        HlValue::Some(part) => {
            let HlType::Option(item) = kind else {
                unreachable!()
            };
            let id = add_value(alloc, terms, types, source, part.get(), item.get())?;
            add_some(terms, types, id)
        }
        HlValue::Left(part) => {
            let HlType::Either(left, right) = kind else {
                unreachable!()
            };
            let other = structure(alloc, right.get(), types)?;
            let id = add_value(alloc, terms, types, source, part.get(), left.get())?;
            add_to_left(terms, types, other, id)
        }
        HlValue::Right(part) => {
            let HlType::Either(left, right) = kind else {
                unreachable!()
            };
            let other = structure(alloc, left.get(), types)?;
            let id = add_value(alloc, terms, types, source, part.get(), right.get())?;
            add_to_right(terms, types, other, id)
        }
    }
}
