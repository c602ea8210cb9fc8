//! Why bits are refused.

/// Why a reader refuses bits. Each `at` counts bits from the first.
#[derive(Clone, Copy, Debug, PartialEq, Eq)]
pub enum BitRefusal {
    /// The bits end before the field does; `at` is the number of all bits.
    EndOfBits { at: u128 },
    /// A length part of 32 or more stands in a natural, which begins at `at`.
    NaturalTooLarge { at: u128 },
    /// The rest isn't fewer than eight zeros. Where a bit of it is 1, `at` is the first such bit; else `at` is
    /// the first bit of the first whole byte that isn't needed.
    BadPadding { at: u128 },
}
