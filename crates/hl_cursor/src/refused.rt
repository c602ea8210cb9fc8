//! Why reading stops.

ghost use Rattle.std.specs.Prelude.{◌≡◌};
ghost use Rattle.hl_cursor.specs.declared.refused.Refused.TheVariants.{OutOfMemory};

use std::alloc::{AllocError, AllocFailed};

/// Why reading stops. The cursor stands at the token that is refused.
#[derive(Clone, Copy, PartialEq, Eq, Debug)]
pub enum Refused {
    /// The token, or the end of the tokens, stands where nothing of the grammar has it.
    Syntax,
    /// What begins at the token is nested too deep.
    TooDeep,
    OutOfMemory,
}

impl From<AllocError> for Refused {
    ghost from_gives = { λ _ e. e ≡ OutOfMemory };

    fn from(_error: AllocError) -> Refused {
        Refused::OutOfMemory
    }
}

impl<T: Drop> From<AllocFailed<T>> for Refused {
    ghost from_gives = { λ _ e. e ≡ OutOfMemory };

    fn from(_error: AllocFailed<T>) -> Refused {
        Refused::OutOfMemory
    }
}
