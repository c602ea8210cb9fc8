//! Comparisons.

ghost use Rattle.std.specs.Prelude.{◌≡◌, ◌+◌, ◌-◌, ◌*◌, ◌/◌, ◌%◌, ◌^◌, ◌<◌, ◌≤◌, IsTrue, min, max, [], ◌∷◌, Some};
ghost use Rattle.jets.specs.Unsigned.{is_width};
ghost use Rattle.jets.specs.Jet as jet;
ghost use Rattle.jets.specs.Jet.{amount, width_of};
ghost use Rattle.jets.specs.Formula.{outcome, bit, shifted_left, shifted_right, rotated};
ghost use Rattle.word_math.specs.Answer.{results_of, widths_of, numbers_of};
ghost use Rattle.word_math.specs.Widths.{IsNarrow, unsigned};

use crate::answer::JetAnswer;
use crate::arguments::{one, three, two};
use crate::word::Word;

/// One truth value.
pub(crate) fn test(truth: bool) -> JetAnswer
    ensures { results_of result ≡ Some (unsigned 1 (bit truth) ∷ []) }
{
    JetAnswer::One(Word::narrow(1, if truth { 1 } else { 0 }))
}

/// Whether `a` is 0.
pub(crate) fn is_zero(n: u16, words: &[Word]) -> JetAnswer
    requires width { IsNarrow n }
    requires widths { widths_of words.now ≡ n ∷ [] }
    ensures { results_of result ≡ outcome jet.IsZero n n (numbers_of words.now) }
{
    let a = one(n, words);
    test(a == 0)
}

/// Whether `a` is 1.
pub(crate) fn is_one(n: u16, words: &[Word]) -> JetAnswer
    requires width { IsNarrow n }
    requires widths { widths_of words.now ≡ n ∷ [] }
    ensures { results_of result ≡ outcome jet.IsOne n n (numbers_of words.now) }
{
    let a = one(n, words);
    test(a == 1)
}

/// Whether `a` is below `b`.
pub(crate) fn lt(n: u16, words: &[Word]) -> JetAnswer
    requires width { IsNarrow n }
    requires widths { widths_of words.now ≡ n ∷ n ∷ [] }
    ensures { results_of result ≡ outcome jet.Lt n n (numbers_of words.now) }
{
    let (a, b) = two(n, n, words);
    test(a < b)
}

/// Whether `a` is at most `b`.
pub(crate) fn le(n: u16, words: &[Word]) -> JetAnswer
    requires width { IsNarrow n }
    requires widths { widths_of words.now ≡ n ∷ n ∷ [] }
    ensures { results_of result ≡ outcome jet.Le n n (numbers_of words.now) }
{
    let (a, b) = two(n, n, words);
    test(a <= b)
}

/// The lesser.
pub(crate) fn min(n: u16, words: &[Word]) -> JetAnswer
    requires width { IsNarrow n }
    requires widths { widths_of words.now ≡ n ∷ n ∷ [] }
    ensures { results_of result ≡ outcome jet.Min n n (numbers_of words.now) }
{
    let (a, b) = two(n, n, words);
    JetAnswer::One(Word::narrow(n, if a < b { a } else { b }))
}

/// The greater.
pub(crate) fn max(n: u16, words: &[Word]) -> JetAnswer
    requires width { IsNarrow n }
    requires widths { widths_of words.now ≡ n ∷ n ∷ [] }
    ensures { results_of result ≡ outcome jet.Max n n (numbers_of words.now) }
{
    let (a, b) = two(n, n, words);
    JetAnswer::One(Word::narrow(n, if a < b { b } else { a }))
}

/// The one of three numbers that stands in the middle of their order.
fn middle(a: u128, b: u128, c: u128) -> u128
    ensures { result ≡ max (min a b) (min (max a b) c) }
{
    let (least, most) = if a < b { (a, b) } else { (b, a) };
    if c < least {
        least
    } else if c < most {
        c
    } else {
        most
    }
}

/// The middle one.
pub(crate) fn median(n: u16, words: &[Word]) -> JetAnswer
    requires width { IsNarrow n }
    requires widths { widths_of words.now ≡ n ∷ n ∷ n ∷ [] }
    ensures { results_of result ≡ outcome jet.Median n n (numbers_of words.now) }
{
    let (a, b, c) = three(n, n, n, words);
    JetAnswer::One(Word::narrow(n, middle(a, b, c)))
}

/// Whether two words of one width, which may be of 256 bits, are equal.
pub(crate) fn eq(n: u16, words: &[Word]) -> JetAnswer
    requires widths { widths_of words.now ≡ n ∷ n ∷ [] }
    ensures { results_of result ≡ outcome jet.Eq n n (numbers_of words.now) }
{
    let a = words[0];
    let b = words[1];
    test(a.high() == b.high() && a.low() == b.low())
}
