//! Bits, each by itself or all together.

ghost use Rattle.std.specs.Prelude.{◌≡◌, ◌+◌, ◌-◌, ◌*◌, ◌/◌, ◌%◌, ◌^◌, ◌<◌, ◌≤◌, IsTrue, [], ◌∷◌, Some};
ghost use Rattle.jets.specs.Unsigned.{is_width};
ghost use Rattle.jets.specs.Jet as jet;
ghost use Rattle.jets.specs.Jet.{amount, width_of};
ghost use Rattle.jets.specs.Formula.{outcome, bit, shifted_left, shifted_right, rotated};
ghost use Rattle.word_math.specs.Answer.{results_of, widths_of, numbers_of};
ghost use Rattle.word_math.specs.Widths.{IsNarrow};

use crate::answer::JetAnswer;
use crate::arguments::{none, one, three, two};
use crate::compare::test;
use crate::word::Word;

/// All zeros.
pub(crate) fn low(n: u16, words: &[Word]) -> JetAnswer
    requires width { IsNarrow n }
    requires widths { widths_of words.now ≡ [] }
    ensures { results_of result ≡ outcome jet.Low n n (numbers_of words.now) }
{
    none(words);
    JetAnswer::One(Word::narrow(n, 0))
}

/// All ones.
pub(crate) fn high(n: u16, words: &[Word]) -> JetAnswer
    requires width { IsNarrow n }
    requires widths { widths_of words.now ≡ [] }
    ensures { results_of result ≡ outcome jet.High n n (numbers_of words.now) }
{
    none(words);
    JetAnswer::One(Word::narrow(n, (1 << n) - 1))
}

/// Each bit turned.
pub(crate) fn complement(n: u16, words: &[Word]) -> JetAnswer
    requires width { IsNarrow n }
    requires widths { widths_of words.now ≡ n ∷ [] }
    ensures { results_of result ≡ outcome jet.Complement n n (numbers_of words.now) }
{
    let a = one(n, words);
    JetAnswer::One(Word::narrow(n, (1 << n) - 1 - a))
}

/// Bits that are in both.
pub(crate) fn and(n: u16, words: &[Word]) -> JetAnswer
    requires width { IsNarrow n }
    requires widths { widths_of words.now ≡ n ∷ n ∷ [] }
    ensures { results_of result ≡ outcome jet.And n n (numbers_of words.now) }
{
    let (a, b) = two(n, n, words);
    JetAnswer::One(Word::narrow(n, a & b))
}

/// Bits that are in either.
pub(crate) fn or(n: u16, words: &[Word]) -> JetAnswer
    requires width { IsNarrow n }
    requires widths { widths_of words.now ≡ n ∷ n ∷ [] }
    ensures { results_of result ≡ outcome jet.Or n n (numbers_of words.now) }
{
    let (a, b) = two(n, n, words);
    JetAnswer::One(Word::narrow(n, a | b))
}

/// Bits that are in one alone.
pub(crate) fn xor(n: u16, words: &[Word]) -> JetAnswer
    requires width { IsNarrow n }
    requires widths { widths_of words.now ≡ n ∷ n ∷ [] }
    ensures { results_of result ≡ outcome jet.Xor n n (numbers_of words.now) }
{
    let (a, b) = two(n, n, words);
    JetAnswer::One(Word::narrow(n, a ^ b))
}

/// Bits that are in two or three.
pub(crate) fn maj(n: u16, words: &[Word]) -> JetAnswer
    requires width { IsNarrow n }
    requires widths { widths_of words.now ≡ n ∷ n ∷ n ∷ [] }
    ensures { results_of result ≡ outcome jet.Maj n n (numbers_of words.now) }
{
    let (a, b, c) = three(n, n, n, words);
    JetAnswer::One(Word::narrow(n, (a & b) | (a & c) | (b & c)))
}

/// Bits that are in one or three.
pub(crate) fn xor_xor(n: u16, words: &[Word]) -> JetAnswer
    requires width { IsNarrow n }
    requires widths { widths_of words.now ≡ n ∷ n ∷ n ∷ [] }
    ensures { results_of result ≡ outcome jet.XorXor n n (numbers_of words.now) }
{
    let (a, b, c) = three(n, n, n, words);
    JetAnswer::One(Word::narrow(n, a ^ b ^ c))
}

/// Bits of `b` where `a` has ones, else of `c`.
pub(crate) fn ch(n: u16, words: &[Word]) -> JetAnswer
    requires width { IsNarrow n }
    requires widths { widths_of words.now ≡ n ∷ n ∷ n ∷ [] }
    ensures { results_of result ≡ outcome jet.Ch n n (numbers_of words.now) }
{
    let (a, b, c) = three(n, n, n, words);
    let turned = (1 << n) - 1 - a;
    JetAnswer::One(Word::narrow(n, (a & b) | (turned & c)))
}

/// Whether a bit is 1.
pub(crate) fn some(n: u16, words: &[Word]) -> JetAnswer
    requires width { IsNarrow n }
    requires widths { widths_of words.now ≡ n ∷ [] }
    ensures { results_of result ≡ outcome jet.Some n n (numbers_of words.now) }
{
    let a = one(n, words);
    test(a > 0)
}

/// Whether each bit is 1.
pub(crate) fn all(n: u16, words: &[Word]) -> JetAnswer
    requires width { IsNarrow n }
    requires widths { widths_of words.now ≡ n ∷ [] }
    ensures { results_of result ≡ outcome jet.All n n (numbers_of words.now) }
{
    let a = one(n, words);
    test(a == (1 << n) - 1)
}

/// Nothing where the bit is 1; it fails where it is 0.
pub(crate) fn verify(words: &[Word]) -> JetAnswer
    requires widths { widths_of words.now ≡ 1 ∷ [] }
    ensures { results_of result ≡ outcome jet.Verify 1 1 (numbers_of words.now) }
{
    let a = one(1, words);
    if a == 0 {
        JetAnswer::Failed
    } else {
        JetAnswer::Nothing
    }
}
