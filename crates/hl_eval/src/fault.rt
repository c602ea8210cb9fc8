//! Why there is no value.

ghost use Rattle.std.specs.Prelude.{◌≡◌};
ghost use Rattle.hl_eval.specs.declared.fault.EvalFault.TheVariants.{OutOfMemory};

use std::alloc::{AllocError, AllocFailed};

/// Why there is no value.
#[derive(Debug, Drop, PartialEq, Eq)]
pub enum EvalFault {
    /// A part that was evaluated failed.
    Failed,
    /// A name has no value, or a value has another shape than the construct needs.
    NoAnswer,
    /// There was no memory.
    OutOfMemory,
}

impl From<AllocError> for EvalFault {
    ghost from_gives = { λ _ e. e ≡ OutOfMemory };

    fn from(_error: AllocError) -> EvalFault {
        EvalFault::OutOfMemory
    }
}

impl<T: Drop> From<AllocFailed<T>> for EvalFault {
    ghost from_gives = { λ _ e. e ≡ OutOfMemory };

    fn from(_error: AllocFailed<T>) -> EvalFault {
        EvalFault::OutOfMemory
    }
}
