//! The type of a text: its tokens, their tree, and what the tree stands for.

ghost use Rattle.std.specs.Prelude.{◌≡◌, [], Ok, IfOk};
ghost use Rattle.simplicityhl.specs.Grammar as grammar;
ghost use Rattle.simplicityhl.specs.Grammar.{Stands, most_depth};
ghost use Rattle.simplicityhl.specs.Kinds.{IsSound};
ghost use Rattle.simplicityhl.specs.Tokens.{tokens};
ghost use Rattle.simplicityhl.specs.Written.{walk};
ghost use Rattle.hl_type_texts.specs.Answers.{AnswersText};
ghost use Rattle.hl_type_texts.specs.Texts.{IsTypeText};

use crate::refusal::TypeTextRefusal;
use hl_lex::{LexRefusal, tokens};
use hl_parse::{ParseRefusal, parse_type};
use hl_syntax::{Aliases, HlType, Token, TokenList, TypeText};
use hl_types::{TypeRefusal, resolve};
use lists::Boxed;
use std::alloc::Global;

/// The tokens of a text.
fn lexed(alloc: Global, text: &str) -> Result<TokenList, TypeTextRefusal>
    ensures { AnswersText (λ found. tokens text.now ≡ Ok found) result }
{
    match tokens(alloc, text) {
        Ok(found) => Ok(found),
        Err(LexRefusal::BadCharacter { .. }) => Err(TypeTextRefusal::NotType),
        Err(LexRefusal::OpenComment { .. }) => Err(TypeTextRefusal::NotType),
        Err(LexRefusal::LiteralTooLarge { .. }) => Err(TypeTextRefusal::NotType),
        Err(LexRefusal::OutOfMemory) => Err(TypeTextRefusal::OutOfMemory),
    }
}

/// The tree of a type text's tokens.
fn parsed(alloc: Global, found: &[Token], end: u64) -> Result<Boxed<TypeText>, TypeTextRefusal>
    ensures { AnswersText (Stands grammar.type most_depth found.now) result }
{
    match parse_type(alloc, found, end) {
        Ok(tree) => Ok(Boxed::new(alloc, tree)?),
        Err(ParseRefusal::Syntax { .. }) => Err(TypeTextRefusal::NotType),
        Err(ParseRefusal::TooDeep { .. }) => Err(TypeTextRefusal::NotType),
        Err(ParseRefusal::OutOfMemory) => Err(TypeTextRefusal::OutOfMemory),
    }
}

/// The type that a written type without aliases stands for.
fn walked(alloc: Global, tree: &TypeText) -> Result<HlType, TypeTextRefusal>
    ensures walked { AnswersText (λ kind. walk [] tree.now ≡ Ok kind) result }
    ensures sound { IfOk result IsSound }
{
    match resolve(alloc, tree, &Aliases::new(alloc)) {
        Ok(kind) => Ok(kind),
        Err(TypeRefusal::Rule { .. }) => Err(TypeTextRefusal::NotType),
        Err(TypeRefusal::Limit { .. }) => Err(TypeTextRefusal::NotType),
        Err(TypeRefusal::OutOfMemory) => Err(TypeTextRefusal::OutOfMemory),
    }
}

/// The type that a type text is.
///
/// # Errors
///
/// `NotType` exactly where the text is none, and `OutOfMemory`.
pub fn read_type(alloc: Global, text: &str) -> Result<HlType, TypeTextRefusal>
    ensures read { AnswersText (IsTypeText text.now) result }
    ensures sound { IfOk result IsSound }
{
    match lexed(alloc, text) {
        Ok(found) => match parsed(alloc, found.as_slice(), text.len() as u64) {
            Ok(tree) => walked(alloc, tree.get()),
            Err(refusal) => Err(refusal),
        },
        Err(refusal) => Err(refusal),
    }
}
