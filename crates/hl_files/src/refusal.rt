//! Why a data file is refused.

use lists::Text;
use std::alloc::AllocError;

/// Why a data file gives no entries for names.
#[derive(Debug, Drop)]
pub enum TextRefusal {
    /// The text is no JSON object.
    NotJson,
    /// The entry of the name is no object, has no text members `value` and `type`, or its type is
    /// no type text.
    BadEntry { name: Text },
    /// The value of the entry of the name is no value text of its type.
    BadValue { name: Text },
    OutOfMemory,
}

impl From<AllocError> for TextRefusal {
    ghost use Rattle.std.specs.Prelude.{◌≡◌};
    ghost use Rattle.hl_files.specs.declared.refusal.TextRefusal.TheVariants.{OutOfMemory};

    ghost from_gives = { λ _ refusal. refusal ≡ OutOfMemory };

    fn from(_error: AllocError) -> TextRefusal {
        TextRefusal::OutOfMemory
    }
}

/// Why a data file doesn't give an entry for each wanted name.
#[derive(Debug, Drop)]
pub enum WantedRefusal {
    /// The text is no JSON object.
    NotJson,
    /// The file has no entry of the name.
    Missing { name: Text },
    /// The entry of the name is no object, has no text members `value` and `type`, or its type is
    /// no type text.
    BadEntry { name: Text },
    /// The type of the entry of the name isn't the wanted one.
    TypeDiffers { name: Text },
    /// The value of the entry of the name is no value text of its type.
    BadValue { name: Text },
    OutOfMemory,
}

impl From<AllocError> for WantedRefusal {
    ghost use Rattle.std.specs.Prelude.{◌≡◌};
    ghost use Rattle.hl_files.specs.declared.refusal.WantedRefusal.TheVariants.{OutOfMemory};

    ghost from_gives = { λ _ refusal. refusal ≡ OutOfMemory };

    fn from(_error: AllocError) -> WantedRefusal {
        WantedRefusal::OutOfMemory
    }
}
