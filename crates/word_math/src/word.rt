//! Words: numbers of 1 to 256 bits.

ghost use Rattle.std.specs.Prelude.{◌≡◌, ◌+◌, ◌-◌, ◌*◌, ◌/◌, ◌%◌, ◌^◌, ◌<◌, ◌≤◌, ◌↔◌, nat_eq, IsTrue, IsSome, IfSome};
ghost use Rattle.jets.specs.Unsigned.{is_width, Unsigned, IsUnsigned};
ghost use Rattle.word_math.specs.Widths.{unsigned};

use std::marker::Model;

/// A number with its width in bits, which is one of 1 to 256 by doubling.
#[derive(Clone, Copy, Debug, PartialEq, Eq, Hash)]
pub struct Word {
    width: u16,
    high: u128,
    low: u128,
}

impl Model for Word {
    ghost use Rattle.std.specs.Prelude.{◌+◌, ◌*◌, ◌/◌, ◌%◌, ◌^◌, ◌<◌};
    ghost use Rattle.jets.specs.Unsigned.{Unsigned, IsUnsigned};

    ghost Value = { Unsigned };

    ghost view = { λ w. record { width = w.width; number = w.high * 2 ^ 128 + w.low } };

    ghost invariant = { λ w. (w.high < 2 ^ 128) × (w.low < 2 ^ 128) × IsUnsigned (record { width = w.width; number = w.high * 2 ^ 128 + w.low }) };

    ghost inverse = { λ u. record { width = u.width; high = u.number / 2 ^ 128; low = u.number % 2 ^ 128 } };

    ghost use Rattle.word_math.specs.Halves.{halves_back};

    ghost inverse_ok = { λ w h. halves_back w.width w.high w.low h.1 };
}

/// Whether words have this width.
fn is_word_width(width: u16) -> bool
    ensures { result ≡ is_width width }
{
    matches!(width, 1 | 2 | 4 | 8 | 16 | 32 | 64 | 128 | 256)
}

impl Word {
    /// The word of a width whose number is `high * 2^128 + low`. None where the width is none of 1 to 256 by doubling, or the number doesn't fit.
    pub fn new(width: u16, high: u128, low: u128) -> Option<Word>
        ensures valid { IsSome result ↔ IsUnsigned (unsigned width (high * 2 ^ 128 + low)) }
        ensures value { IfSome result (λ w. w ≡ unsigned width (high * 2 ^ 128 + low)) }
    {
        if !is_word_width(width) {
            return None;
        }
        let fits = match width {
            256 => true,
            128 => high == 0,
            _ => high == 0 && low < 1 << width,
        };
        if fits {
            Some(Word { width, high, low })
        } else {
            None
        }
    }

    /// The word of a width up to 128.
    pub(crate) fn narrow(width: u16, number: u128) -> Word
        requires width { IsTrue (is_width width) }
        requires fits { number < 2 ^ width }
        ensures { result ≡ unsigned width number }
    {
        Word {
            width,
            high: 0,
            low: number,
        }
    }

    /// The width in bits.
    pub fn width(&self) -> u16
        ensures value { result ≡ self.now.width }
        ensures fits { IsUnsigned self.now }
    {
        self.width
    }

    /// The number's last 128 bits.
    pub fn low(&self) -> u128
        ensures { result ≡ self.now.number % 2 ^ 128 }
    {
        self.low
    }

    /// The number's bits before the last 128.
    pub fn high(&self) -> u128
        ensures { result ≡ self.now.number / 2 ^ 128 }
    {
        self.high
    }

    /// The number of a word of at most 128 bits.
    pub(crate) fn number(&self) -> u128
        requires { self.now.width ≤ 128 }
        ensures value { result ≡ self.now.number }
        ensures fits { result < 2 ^ self.now.width }
    {
        self.low
    }

    /// The bit at a place, the most significant first.
    pub fn bit(&self, place: u16) -> bool
        requires { place < self.now.width }
        ensures { result ≡ nat_eq (self.now.number / 2 ^ (self.now.width - 1 - place) % 2) 1 }
    {
        let behind = self.width - 1 - place;
        if behind < 128 {
            (self.low >> behind) % 2 == 1
        } else {
            (self.high >> (behind - 128)) % 2 == 1
        }
    }
}
