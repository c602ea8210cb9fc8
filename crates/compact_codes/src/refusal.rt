//! Why bits are no value.

use std::alloc::AllocFailed;

/// Why bits aren't read as a value of a type.
#[derive(Clone, Copy, Debug, PartialEq, Eq)]
pub enum CompactRefusal {
    /// The bits end inside the value; `at` is the number of all bits.
    EndOfBits { at: u128 },
    OutOfMemory,
}

impl<T: Drop> From<AllocFailed<T>> for CompactRefusal {
    ghost use Rattle.std.specs.Prelude.{◌≡◌};
    ghost use Rattle.compact_codes.specs.declared.refusal.CompactRefusal.TheVariants.{OutOfMemory};

    ghost from_gives = { λ _ refusal. refusal ≡ OutOfMemory };

    fn from(_error: AllocFailed<T>) -> CompactRefusal {
        CompactRefusal::OutOfMemory
    }
}
