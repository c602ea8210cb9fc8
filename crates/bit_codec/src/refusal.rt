//! Why bytes spell no program, and bits no value.

use cell_bits::BitRefusal;
use std::alloc::AllocError;

/// Why bytes spell no list of nodes. Each `at` counts bits from the program's first; `node` is a node's index.
#[derive(Clone, Copy, Debug, PartialEq, Eq)]
pub enum CodecRefusal {
    /// The bits end before the next field does; `at` is the number of all bits.
    EndOfBits { at: u128 },
    /// A length part of 32 or more stands in the natural that begins at `at`.
    NaturalTooLarge { at: u128 },
    /// The number of nodes passes the limit.
    TooManyNodes,
    /// The code of a jet begins at `at`.
    JetCode { at: u128 },
    /// The code of a disconnect begins at `at`.
    Disconnect { at: u128 },
    /// The code that stands for nothing begins at `at`.
    Reserved { at: u128 },
    /// A distance of the node is greater than its index.
    BadDistance { node: usize },
    /// A word of more than 2^8 bits.
    WordTooWide { node: usize },
    /// A node other than a case has a hidden child.
    HiddenPlace { node: usize },
    /// Both children of a case are hidden.
    BothHidden { node: usize },
    /// The last node is hidden.
    HiddenRoot,
    /// What follows the last node isn't fewer than eight zeros. Where a bit of it is 1, `at` is the first such bit;
    /// else `at` is the first bit of the first whole byte that isn't needed.
    BadPadding { at: u128 },
    OutOfMemory,
}

impl From<BitRefusal> for CodecRefusal {
    ghost use Rattle.std.specs.Prelude.{◌≡◌};
    ghost use Rattle.bit_codec.specs.Answers.{of_bits};

    ghost from_gives = { λ refusal codec. codec ≡ of_bits refusal };

    fn from(refusal: BitRefusal) -> CodecRefusal {
        match refusal {
            BitRefusal::EndOfBits { at } => CodecRefusal::EndOfBits { at },
            BitRefusal::NaturalTooLarge { at } => CodecRefusal::NaturalTooLarge { at },
            BitRefusal::BadPadding { at } => CodecRefusal::BadPadding { at },
        }
    }
}

impl From<AllocError> for CodecRefusal {
    ghost use Rattle.std.specs.Prelude.{◌≡◌};
    ghost use Rattle.bit_codec.specs.declared.refusal.CodecRefusal.TheVariants.{OutOfMemory};

    ghost from_gives = { λ _ codec. codec ≡ OutOfMemory };

    fn from(_error: AllocError) -> CodecRefusal {
        CodecRefusal::OutOfMemory
    }
}
