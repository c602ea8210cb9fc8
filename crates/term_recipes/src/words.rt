//! The terms of words and of truth values.

ghost use Rattle.std.specs.Prelude.{◌<◌, length, IfOk};
ghost use Rattle.hl_terms.specs.Translated.{false_term, true_term, word_term};
ghost use Rattle.simplicity.specs.Makes as make;
ghost use Rattle.simplicity.specs.Types.{One};
ghost use Rattle.simplicity.specs.Widths.{level_of, IsWidth, word_of_width};
ghost use Rattle.type_table.specs.Kinds.{kind_at, Means, IsGrown};
ghost use Rattle.term_core.specs.Terms.{StandsOver, MeansTerm, KeepsRows};

use std::alloc::AllocError;
use term_core::{Node, NodeId, TermTable};
use term_makers::{add_comp, add_to_left, add_to_right, add_unit, arrow_of};
use type_table::{TypeId, TypeTable};
use word_math::Word;

/// The unit type, and the type of the words of a width.
#[tactic(auto, using(type_table::proofs::Growth::means_grown))]
fn word_arrow(types: &mut TypeTable, width: u16) -> Result<(TypeId, TypeId), AllocError>
    requires { IsWidth width }
    ensures unit { IfOk result (λ ids. Means types.new ids.0 One) }
    ensures word { IfOk result (λ ids. Means types.new ids.1 (word_of_width width)) }
    ensures grown { IsGrown types.old types.new }
{
    let unit = types.unit()?;
    let word = types.word(width)?;
    Ok((unit, word))
}

/// The word alone, from the unit type.
#[tactic(auto, using(crate::proofs::Later::stands_later))]
pub fn add_word(
    terms: &mut TermTable,
    types: &mut TypeTable,
    word: Word,
) -> Result<NodeId, AllocError>
    requires stands { StandsOver types.old terms.old }
    ensures ok { IfOk result (λ id. MeansTerm types.new terms.new id (make.word (level_of word.width) word.number)) }
    ensures grown { IsGrown types.old types.new }
    ensures kept { KeepsRows terms.old terms.new }
    ensures stands { StandsOver types.new terms.new }
{
    let (unit, target) = word_arrow(types, word.width())?;
    terms.add(Node::Word(word), unit, target, types)
}

/// A word, on inputs of a type.
pub fn add_word_value(
    terms: &mut TermTable,
    types: &mut TypeTable,
    source: TypeId,
    word: Word,
) -> Result<NodeId, AllocError>
    requires stands { StandsOver types.old terms.old }
    requires source { source < length types.old }
    ensures ok { IfOk result (λ id. MeansTerm types.new terms.new id
        (word_term (kind_at types.old source) word.width word.number)) }
    ensures grown { IsGrown types.old types.new }
    ensures kept { KeepsRows terms.old terms.new }
    ensures stands { StandsOver types.new terms.new }
{
    let unit = add_unit(terms, types, source)?;
    let word = add_word(terms, types, word)?;
    add_comp(terms, types, unit, word)
}

/// `true`, on inputs of a type.
pub fn add_true(
    terms: &mut TermTable,
    types: &mut TypeTable,
    source: TypeId,
) -> Result<NodeId, AllocError>
    requires stands { StandsOver types.old terms.old }
    requires source { source < length types.old }
    ensures ok { IfOk result (λ id. MeansTerm types.new terms.new id (true_term (kind_at types.old source))) }
    ensures grown { IsGrown types.old types.new }
    ensures kept { KeepsRows terms.old terms.new }
    ensures stands { StandsOver types.new terms.new }
{
    let unit = add_unit(terms, types, source)?;
    let (_source, one) = arrow_of(terms, types, unit);
    add_to_right(terms, types, one, unit)
}

/// `false`, on inputs of a type.
pub fn add_false(
    terms: &mut TermTable,
    types: &mut TypeTable,
    source: TypeId,
) -> Result<NodeId, AllocError>
    requires stands { StandsOver types.old terms.old }
    requires source { source < length types.old }
    ensures ok { IfOk result (λ id. MeansTerm types.new terms.new id (false_term (kind_at types.old source))) }
    ensures grown { IsGrown types.old types.new }
    ensures kept { KeepsRows terms.old terms.new }
    ensures stands { StandsOver types.new terms.new }
{
    let unit = add_unit(terms, types, source)?;
    let (_source, one) = arrow_of(terms, types, unit);
    add_to_left(terms, types, one, unit)
}
