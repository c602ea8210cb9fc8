//! Why a text has no tokens.

use hl_syntax::Span;
use std::alloc::AllocError;

/// Why a text has no tokens: its first fault, or no memory for them.
#[derive(Clone, Copy, Debug, PartialEq, Eq)]
pub enum LexRefusal {
    /// A character that begins no token, or a word that begins with a digit and is no literal.
    BadCharacter { span: Span },
    /// A `/*` with no `*/` after it; the span goes to the text's end.
    OpenComment { span: Span },
    /// A decimal literal of 2^128 or more.
    LiteralTooLarge { span: Span },
    OutOfMemory,
}

impl From<AllocError> for LexRefusal {
    ghost use Rattle.std.specs.Prelude.{◌≡◌};
    ghost use Rattle.hl_lex.specs.declared.refusal.LexRefusal.TheVariants.{OutOfMemory};

    ghost from_gives = { λ _ refusal. refusal ≡ OutOfMemory };

    fn from(_error: AllocError) -> LexRefusal {
        LexRefusal::OutOfMemory
    }
}
