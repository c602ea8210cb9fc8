//! Why a text has no typed tree.

ghost use Rattle.hl_scope.specs.Checks.{Checks};
ghost use Rattle.hl_rules.specs.Steps.{needs};

use hl_syntax::{Limit, Rule, Span};
use std::alloc::{AllocError, AllocFailed};

/// Why a text has no typed tree: the first rule or limit that it breaks, or no memory.
#[derive(Clone, Copy, Debug, PartialEq, Eq)]
pub enum CheckRefusal {
    /// One of the rules K1 to K24.
    Rule { rule: Rule, span: Span },
    /// A count passes 65,536 (L4), or the form of a written type has more than 4,194,304 nodes (L5).
    Limit { limit: Limit, span: Span },
    OutOfMemory,
}

impl From<AllocError> for CheckRefusal {
    ghost use Rattle.std.specs.Prelude.{◌≡◌};
    ghost use Rattle.hl_scope.specs.declared.refusal.CheckRefusal.TheVariants.{OutOfMemory};

    ghost from_gives = { λ _ refusal. refusal ≡ OutOfMemory };

    fn from(_error: AllocError) -> CheckRefusal {
        CheckRefusal::OutOfMemory
    }
}

impl<T: Drop> From<AllocFailed<T>> for CheckRefusal {
    ghost use Rattle.std.specs.Prelude.{◌≡◌};
    ghost use Rattle.hl_scope.specs.declared.refusal.CheckRefusal.TheVariants.{OutOfMemory};

    ghost from_gives = { λ _ refusal. refusal ≡ OutOfMemory };

    fn from(_error: AllocFailed<T>) -> CheckRefusal {
        CheckRefusal::OutOfMemory
    }
}

/// That a rule is broken at a span, unless something holds.
pub fn needs(holds: bool, rule: Rule, span: Span) -> Result<(), CheckRefusal>
    ensures { Checks (needs holds rule span) result }
{
    if holds {
        Ok(())
    } else {
        Err(CheckRefusal::Rule { rule, span })
    }
}
