//! The numbers of a jet's arguments, under their widths.

ghost use Rattle.std.specs.Prelude.{◌≡◌, ◌^◌, ◌<◌, ◌≤◌, [], ◌∷◌};
ghost use Rattle.word_math.specs.Answer.{widths_of, numbers_of};

use crate::word::Word;

/// No arguments.
pub(crate) fn none(words: &[Word])
    requires widths { widths_of words.now ≡ [] }
    ensures { numbers_of words.now ≡ [] }
{
    let _ = words;
}

/// The number of one argument of width `p`.
pub(crate) fn one(p: u16, words: &[Word]) -> u128
    requires widths { widths_of words.now ≡ p ∷ [] }
    requires narrow_p { p ≤ 128 }
    ensures numbers { numbers_of words.now ≡ result ∷ [] }
    ensures first { result < 2 ^ p }
{
    words[0].number()
}

/// The numbers of two arguments of widths `p` and `q`.
pub(crate) fn two(p: u16, q: u16, words: &[Word]) -> (u128, u128)
    requires widths { widths_of words.now ≡ p ∷ q ∷ [] }
    requires narrow_p { p ≤ 128 }
    requires narrow_q { q ≤ 128 }
    ensures numbers { numbers_of words.now ≡ result.0 ∷ result.1 ∷ [] }
    ensures first { result.0 < 2 ^ p }
    ensures second { result.1 < 2 ^ q }
{
    (words[0].number(), words[1].number())
}

/// The numbers of three arguments of widths `p`, `q` and `r`.
pub(crate) fn three(p: u16, q: u16, r: u16, words: &[Word]) -> (u128, u128, u128)
    requires widths { widths_of words.now ≡ p ∷ q ∷ r ∷ [] }
    requires narrow_p { p ≤ 128 }
    requires narrow_q { q ≤ 128 }
    requires narrow_r { r ≤ 128 }
    ensures numbers { numbers_of words.now ≡ result.0 ∷ result.1 ∷ result.2 ∷ [] }
    ensures first { result.0 < 2 ^ p }
    ensures second { result.1 < 2 ^ q }
    ensures third { result.2 < 2 ^ r }
{
    (words[0].number(), words[1].number(), words[2].number())
}

/// The numbers of four arguments of widths `p`, `q`, `r` and `s`.
pub(crate) fn four(p: u16, q: u16, r: u16, s: u16, words: &[Word]) -> (u128, u128, u128, u128)
    requires widths { widths_of words.now ≡ p ∷ q ∷ r ∷ s ∷ [] }
    requires narrow_p { p ≤ 128 }
    requires narrow_q { q ≤ 128 }
    requires narrow_r { r ≤ 128 }
    requires narrow_s { s ≤ 128 }
    ensures numbers { numbers_of words.now ≡ result.0 ∷ result.1 ∷ result.2 ∷ result.3 ∷ [] }
    ensures first { result.0 < 2 ^ p }
    ensures second { result.1 < 2 ^ q }
    ensures third { result.2 < 2 ^ r }
    ensures fourth { result.3 < 2 ^ s }
{
    (
        words[0].number(),
        words[1].number(),
        words[2].number(),
        words[3].number(),
    )
}
