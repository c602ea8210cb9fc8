//! Roots of words.

ghost use Rattle.std.specs.Prelude.{◌≡◌, ◌-◌, ◌^◌, ◌<◌, ◌≤◌};
ghost use Rattle.simplicity.specs.Roots as spec;
ghost use Rattle.simplicity.specs.Widths.{level_of};

use crate::tag::{constant, double, single};
use term_core::word_level;
use word_math::Word;

/// The root of a word: that of the term that pairs its halves, down to bits, which are tagged units.
pub(crate) fn word_root(word: &Word) -> [u8; 32]
    ensures { result ≡ spec.word_root (level_of word.now.width) word.now.number }
{
    let level = word_level(word);
    if level == 8 {
        let first = narrow_root(7, word.high());
        let second = narrow_root(7, word.low());
        double(b"simphl/pair", &first, &second)
    } else {
        narrow_root(level, word.low())
    }
}

/// The root of the word of 2^level bits with a number.
fn narrow_root(level: u32, number: u128) -> [u8; 32]
    requires { level ≤ 7 }
    ensures { result ≡ spec.word_root level number }
{
    if level == 0 {
        return bit_root(number % 2 == 1);
    }
    let behind = half_width(level);
    let first = narrow_root(level - 1, number >> behind);
    let second = narrow_root(level - 1, number % (1 << behind));
    double(b"simphl/pair", &first, &second)
}

/// Half the width at a level.
fn half_width(level: u32) -> u32
    requires some { 0 < level }
    requires small { level ≤ 7 }
    ensures value { result ≡ 2 ^ (level - 1) }
    ensures small { result ≤ 64 }
{
    match level {
        1 => 1,
        2 => 2,
        3 => 4,
        4 => 8,
        5 => 16,
        6 => 32,
        _ => 64,
    }
}

/// The root of a bit.
fn bit_root(bit: bool) -> [u8; 32]
    ensures { result ≡ spec.bit_root bit }
{
    let unit = constant(b"simphl/unit");
    if bit {
        single(b"simphl/injr", &unit)
    } else {
        single(b"simphl/injl", &unit)
    }
}
