//! Sources: text, tokens, trees.

ghost use Rattle.std.specs.Prelude.{IfOk, IsUtf8, Ok, Err};
ghost use Rattle.simplicityhl.specs.Tokens.{tokens};
ghost use Rattle.hl_lex.specs.Lexes.{IsRefusalOf};
ghost use Rattle.command_outcome.specs.Stops.{IsRead, IsTree, IsUnlexed, Stops};

use crate::names::SourceCause;
use crate::stop::Stop;
use crate::texts::{passed_limit, refused_source, refused_span};
use hl_lex::{LexRefusal, tokens};
use hl_parse::{ParseRefusal, parse};
use hl_syntax::{Limit, Program, Token};
use std::alloc::Global;

/// The tree of a source.
///
/// # Errors
///
/// `NotUtf8`, `BadCharacter`, `OpenComment` or `Syntax` with its place, L3 or L2, whichever comes
/// first in the order UTF-8, tokens, grammar.
pub fn read_program(alloc: Global, source: &[u8]) -> Result<Program, Stop>
    ensures { IsRead source.now result }
{
    match str::from_utf8(source) {
        Ok(text) => read_text(alloc, text),
        Err(error) => {
            let at = error.valid_up_to() as u128;
            Err(refused_source(alloc, SourceCause::NotUtf8, at, at + 1))
        }
    }
}

/// The tree of a source as text.
fn read_text(alloc: Global, text: &str) -> Result<Program, Stop>
    requires { IsUtf8 text.now }
    ensures { IsRead text.now result }
{
    match tokens(alloc, text) {
        Ok(found) => read_tokens(alloc, found.as_slice(), text.len() as u64),
        Err(refusal) => Err(unlexed(alloc, refusal)),
    }
}

/// The tree of tokens, in a text of so many bytes.
fn read_tokens(alloc: Global, found: &[Token], end: u64) -> Result<Program, Stop>
    ensures { IsTree found.now end result }
{
    match parse(alloc, found, end) {
        Ok(program) => Ok(program),
        Err(ParseRefusal::Syntax { at }) => Err(refused_span(alloc, SourceCause::Syntax, at)),
        Err(ParseRefusal::TooDeep { .. }) => Err(passed_limit(alloc, Limit::L2)),
        Err(ParseRefusal::OutOfMemory) => Err(Stop::OutOfMemory),
    }
}

/// A fault of the tokens.
fn unlexed(alloc: Global, refusal: LexRefusal) -> Stop
    ensures { Stops (IsUnlexed refusal) result }
{
    match refusal {
        LexRefusal::BadCharacter { span } => refused_span(alloc, SourceCause::BadCharacter, span),
        LexRefusal::OpenComment { span } => refused_span(alloc, SourceCause::OpenComment, span),
        LexRefusal::LiteralTooLarge { .. } => passed_limit(alloc, Limit::L3),
        LexRefusal::OutOfMemory => Stop::OutOfMemory,
    }
}
