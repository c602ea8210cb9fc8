//! Why a text gives no type.

use std::alloc::AllocError;

/// Why a text gives no type.
#[derive(Clone, Copy, Debug, Drop)]
pub enum TypeTextRefusal {
    /// It is no type text: its tokens are no type, or it is nested deeper than 128 (L2), or it
    /// breaks a rule or a limit of written types (L4, L5), or it names an alias.
    NotType,
    OutOfMemory,
}

impl From<AllocError> for TypeTextRefusal {
    ghost use Rattle.std.specs.Prelude.{◌≡◌};
    ghost use Rattle.hl_type_texts.specs.declared.refusal.TypeTextRefusal.TheVariants.{OutOfMemory};

    ghost from_gives = { λ _ refusal. refusal ≡ OutOfMemory };

    fn from(_error: AllocError) -> TypeTextRefusal {
        TypeTextRefusal::OutOfMemory
    }
}
