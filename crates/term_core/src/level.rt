//! The level of a word.

ghost use Rattle.std.specs.Prelude.{◌≡◌, ◌^◌, ◌≤◌, ◌<◌};
ghost use Rattle.simplicity.specs.Types.{word_count};
ghost use Rattle.simplicity.specs.Widths.{level_of};

use word_math::Word;

/// The level of a word's width, which is 2 to the power of it: from 0 for a bit to 8 for 256 bits.
pub fn word_level(word: &Word) -> u32
    ensures value { result ≡ level_of word.now.width }
    ensures small { result ≤ 8 }
    ensures width { word.now.width ≡ 2 ^ result }
    ensures fits { word.now.number < word_count result }
{
    match word.width() {
        1 => 0,
        2 => 1,
        4 => 2,
        8 => 3,
        16 => 4,
        32 => 5,
        64 => 6,
        128 => 7,
        _ => 8,
    }
}
