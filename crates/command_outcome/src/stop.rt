//! Why a command ends without a text for `out`.

ghost use Rattle.std.specs.Prelude.{◌≡◌};
ghost use Rattle.command_outcome.specs.declared.stop.Stop.TheVariants.{OutOfMemory};

use crate::status::Status;
use std::alloc::{AllocError, AllocFailed};

/// Why a command has no text for `out`.
#[derive(Drop)]
pub enum Stop {
    /// Its status, and the line for `err`.
    Refused { status: Status, line: String },
    /// There was no memory.
    OutOfMemory,
}

impl From<AllocError> for Stop {
    ghost from_gives = { λ _ stop. stop ≡ OutOfMemory };

    fn from(_error: AllocError) -> Stop {
        Stop::OutOfMemory
    }
}

impl<T: Drop> From<AllocFailed<T>> for Stop {
    ghost from_gives = { λ _ stop. stop ≡ OutOfMemory };

    fn from(_error: AllocFailed<T>) -> Stop {
        Stop::OutOfMemory
    }
}
