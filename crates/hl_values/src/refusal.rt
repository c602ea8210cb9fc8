//! Why a text gives no value.

use std::alloc::AllocError;

/// Why a text gives no value.
#[derive(Clone, Copy, Debug, PartialEq, Eq)]
pub enum ValueRefusal {
    /// The text is no value text of the type.
    NotValue,
    OutOfMemory,
}

impl From<AllocError> for ValueRefusal {
    ghost use Rattle.std.specs.Prelude.{◌≡◌};
    ghost use Rattle.hl_values.specs.declared.refusal.ValueRefusal.TheVariants.{OutOfMemory};

    ghost from_gives = { λ _ refusal. refusal ≡ OutOfMemory };

    fn from(_error: AllocError) -> ValueRefusal {
        ValueRefusal::OutOfMemory
    }
}
