//! The tokens of a text.

ghost use Rattle.std.specs.Prelude.{◌≡◌, ◌<◌, ◌≤◌, ◌+◌, length, drop, IfOk, IfErr};
ghost use Rattle.simplicityhl.specs.Tokens.{tokens, tokens_after};
ghost use Rattle.hl_lex.specs.Lexes.{IsAnswerTo, IsRefusalFor, IsRefusalOf, tokens_then};
ghost use Rattle.hl_lex.specs.Seen.{fault_of};

use crate::LexRefusal;
use crate::front::{Fault, Reading, read_front};
use hl_syntax::{Span, Token, TokenKind, TokenList};
use std::alloc::Global;

/// The tokens of a text, each with the bytes that it takes up, or the text's first fault.
///
/// White space and comments are dropped; a comment from `/*` ends at the next `*/`.
pub fn tokens(alloc: Global, text: &str) -> Result<TokenList, LexRefusal>
    ensures { IsAnswerTo (tokens text.now) result }
{
    let bytes = text.as_bytes();
    let mut found = TokenList::new(alloc);
    let mut at = 0;
    while at < bytes.len() {
        at = step(alloc, bytes, at, &mut found)?;
    }
    Ok(found)
}

/// Reads what stands at a place, puts a token at the end of the list, and gives the place after it.
fn step(alloc: Global, text: &[u8], at: usize, found: &mut TokenList) -> Result<usize, LexRefusal>
    requires { at < length text.now }
    ensures onward { IfOk result (λ next. at < next) }
    ensures within { IfOk result (λ next. next ≤ length text.now) }
    ensures read { IfOk result (λ next.
        tokens_then found.old (tokens_after 0 at (drop at text.now))
        ≡ tokens_then found.new (tokens_after 0 next (drop next text.now))) }
    ensures refused { IfErr result (λ refusal.
        IsRefusalOf (tokens_after 0 at (drop at text.now)) refusal) }
{
    let (_, rest) = text.split_at(at);
    let front = read_front(alloc, rest)?;
    let end = at + front.size;
    let span = Span {
        start: at as u64,
        end: end as u64,
    };
    match front.reading {
        Reading::Dropped => Ok(end),
        Reading::Token(kind) => {
            found.push(Token { kind, span })?;
            Ok(end)
        }
        Reading::Fault(fault) => Err(refusal(fault, span)),
    }
}

/// A fault as a refusal.
fn refusal(fault: Fault, span: Span) -> LexRefusal
    ensures { IsRefusalFor (fault_of fault) span result }
{
    match fault {
        Fault::BadCharacter => LexRefusal::BadCharacter { span },
        Fault::OpenComment => LexRefusal::OpenComment { span },
        Fault::LiteralTooLarge => LexRefusal::LiteralTooLarge { span },
    }
}
