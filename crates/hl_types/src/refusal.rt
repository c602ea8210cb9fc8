//! Why a written type stands for no type.

use hl_syntax::{Limit, Rule, Span};
use std::alloc::AllocError;

/// Why a written type stands for no type: the first rule or limit that it breaks, or no memory.
#[derive(Clone, Copy, Debug, PartialEq, Eq)]
pub enum TypeRefusal {
    /// A name is unknown (K2), or a list's bound is no power of two from 2 up (K10).
    Rule { rule: Rule, span: Span },
    /// A count passes 65,536 (L4), or a type's form has more than 4,194,304 nodes (L5).
    Limit { limit: Limit, span: Span },
    OutOfMemory,
}

impl From<AllocError> for TypeRefusal {
    ghost use Rattle.std.specs.Prelude.{◌≡◌};
    ghost use Rattle.hl_types.specs.declared.refusal.TypeRefusal.TheVariants.{OutOfMemory};

    ghost from_gives = { λ _ refusal. refusal ≡ OutOfMemory };

    fn from(_error: AllocError) -> TypeRefusal {
        TypeRefusal::OutOfMemory
    }
}
