//! Values read from their texts.

ghost use Rattle.std.specs.Prelude.{IfOk};
ghost use Rattle.hl_meaning.specs.Entries.{IsValueOf};
ghost use Rattle.hl_values.specs.Reads.{HasTree, Lexes, Parses, ReadsValue};
ghost use Rattle.simplicityhl.specs.Kinds.{IsSound};

use crate::refusal::ValueRefusal;
use crate::written::value_at;
use hl_data::HlValue;
use hl_lex::{LexRefusal, tokens};
use hl_parse::{ParseRefusal, parse_value};
use hl_syntax::{Expr, HlType, Token, TokenList};
use lists::Boxed;
use std::alloc::Global;

/// The tokens of a text.
fn lexed(alloc: Global, text: &str) -> Result<TokenList, ValueRefusal>
    ensures { Lexes text.now result }
{
    match tokens(alloc, text) {
        Ok(found) => Ok(found),
        Err(LexRefusal::BadCharacter { .. }) => Err(ValueRefusal::NotValue),
        Err(LexRefusal::OpenComment { .. }) => Err(ValueRefusal::NotValue),
        Err(LexRefusal::LiteralTooLarge { .. }) => Err(ValueRefusal::NotValue),
        Err(LexRefusal::OutOfMemory) => Err(ValueRefusal::OutOfMemory),
    }
}

/// The tree of a value text's tokens.
fn parsed(alloc: Global, found: &[Token], end: u64) -> Result<Boxed<Expr>, ValueRefusal>
    ensures { Parses found.now result }
{
    match parse_value(alloc, found, end) {
        Ok(tree) => Ok(Boxed::new(alloc, tree)?),
        Err(ParseRefusal::Syntax { .. }) => Err(ValueRefusal::NotValue),
        Err(ParseRefusal::TooDeep { .. }) => Err(ValueRefusal::NotValue),
        Err(ParseRefusal::OutOfMemory) => Err(ValueRefusal::OutOfMemory),
    }
}

/// The tree of a value text.
fn tree_of(alloc: Global, text: &str) -> Result<Boxed<Expr>, ValueRefusal>
    ensures { HasTree text.now result }
{
    match lexed(alloc, text) {
        Ok(found) => match parsed(alloc, found.as_slice(), text.len() as u64) {
            Ok(tree) => Ok(tree),
            Err(refusal) => Err(refusal),
        },
        Err(refusal) => Err(refusal),
    }
}

/// The value of the type that a text is.
///
/// # Errors
///
/// `NotValue` where the text is no value text of the type: it has no tokens, they are no value in
/// the grammar, nested more than 128 deep too, or the value isn't of the type; and `OutOfMemory`.
pub fn read_value(alloc: Global, text: &str, kind: &HlType) -> Result<HlValue, ValueRefusal>
    requires { IsSound kind.now }
    ensures read { ReadsValue text.now kind.now result }
    ensures of_kind { IfOk result (λ v. IsValueOf v kind.now) }
{
    match tree_of(alloc, text) {
        Ok(tree) => match value_at(alloc, tree.get(), kind) {
            Ok(value) => Ok(value),
            Err(refusal) => Err(refusal),
        },
        Err(refusal) => Err(refusal),
    }
}
