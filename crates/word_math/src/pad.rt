//! Words narrowed and widened.

ghost use Rattle.std.specs.Prelude.{◌≡◌, ◌+◌, ◌-◌, ◌*◌, ◌/◌, ◌%◌, ◌^◌, ◌<◌, ◌≤◌, IsTrue, [], ◌∷◌, Some};
ghost use Rattle.jets.specs.Unsigned.{is_width};
ghost use Rattle.jets.specs.Jet as jet;
ghost use Rattle.jets.specs.Jet.{amount, width_of};
ghost use Rattle.jets.specs.Formula.{outcome, ones_before, zeros_after, ones_after, shifted_left, shifted_right, rotated};
ghost use Rattle.word_math.specs.Answer.{results_of, widths_of, numbers_of};
ghost use Rattle.word_math.specs.Widths.{IsNarrow, unsigned};

use crate::answer::JetAnswer;
use crate::arguments::one;
use crate::word::Word;

/// The bits of `a` after `w - n` zeros.
fn zeros_first(w: u16, a: u128) -> JetAnswer
    requires wide { IsNarrow w }
    requires fits { a < 2 ^ w }
    ensures { results_of result ≡ Some (unsigned w a ∷ []) }
{
    JetAnswer::One(Word::narrow(w, a))
}

/// The bits of `a` after `w - n` ones.
fn ones_first(n: u16, w: u16, a: u128) -> JetAnswer
    requires width { IsNarrow n }
    requires wide { IsNarrow w }
    requires less { n < w }
    requires fits { a < 2 ^ n }
    ensures { results_of result ≡ Some (unsigned w (ones_before n w a) ∷ []) }
{
    JetAnswer::One(Word::narrow(w, a + ((1 << w) - (1 << n))))
}

/// The bits of `a` before `w - n` zeros.
fn zeros_last(n: u16, w: u16, a: u128) -> JetAnswer
    requires width { IsNarrow n }
    requires wide { IsNarrow w }
    requires less { n < w }
    requires fits { a < 2 ^ n }
    ensures { results_of result ≡ Some (unsigned w (zeros_after n w a) ∷ []) }
{
    JetAnswer::One(Word::narrow(w, a << (w - n)))
}

/// The bits of `a` before `w - n` ones.
fn ones_last(n: u16, w: u16, a: u128) -> JetAnswer
    requires width { IsNarrow n }
    requires wide { IsNarrow w }
    requires less { n < w }
    requires fits { a < 2 ^ n }
    ensures { results_of result ≡ Some (unsigned w (ones_after n w a) ∷ []) }
{
    let behind = (1 << (w - n)) - 1;
    JetAnswer::One(Word::narrow(w, (a << (w - n)) + behind))
}

/// The first `n` of `w` bits.
pub(crate) fn leftmost(n: u16, w: u16, words: &[Word]) -> JetAnswer
    requires width { IsNarrow n }
    requires wide { IsNarrow w }
    requires less { n < w }
    requires widths { widths_of words.now ≡ w ∷ [] }
    ensures { results_of result ≡ outcome jet.Leftmost n w (numbers_of words.now) }
{
    let a = one(w, words);
    JetAnswer::One(Word::narrow(n, a >> (w - n)))
}

/// The last `n` of `w` bits.
pub(crate) fn rightmost(n: u16, w: u16, words: &[Word]) -> JetAnswer
    requires width { IsNarrow n }
    requires wide { IsNarrow w }
    requires less { n < w }
    requires widths { widths_of words.now ≡ w ∷ [] }
    ensures { results_of result ≡ outcome jet.Rightmost n w (numbers_of words.now) }
{
    let a = one(w, words);
    JetAnswer::One(Word::narrow(n, a % (1 << n)))
}

/// Zeros before.
pub(crate) fn left_pad_low(n: u16, w: u16, words: &[Word]) -> JetAnswer
    requires width { IsNarrow n }
    requires wide { IsNarrow w }
    requires less { n < w }
    requires widths { widths_of words.now ≡ n ∷ [] }
    ensures { results_of result ≡ outcome jet.LeftPadLow n w (numbers_of words.now) }
{
    let a = one(n, words);
    zeros_first(w, a)
}

/// Ones before.
pub(crate) fn left_pad_high(n: u16, w: u16, words: &[Word]) -> JetAnswer
    requires width { IsNarrow n }
    requires wide { IsNarrow w }
    requires less { n < w }
    requires widths { widths_of words.now ≡ n ∷ [] }
    ensures { results_of result ≡ outcome jet.LeftPadHigh n w (numbers_of words.now) }
{
    let a = one(n, words);
    ones_first(n, w, a)
}

/// The first bit before, as often as it takes.
pub(crate) fn left_extend(n: u16, w: u16, words: &[Word]) -> JetAnswer
    requires width { IsNarrow n }
    requires wide { IsNarrow w }
    requires less { n < w }
    requires widths { widths_of words.now ≡ n ∷ [] }
    ensures { results_of result ≡ outcome jet.LeftExtend n w (numbers_of words.now) }
{
    let a = one(n, words);
    if a < 1 << (n - 1) {
        zeros_first(w, a)
    } else {
        ones_first(n, w, a)
    }
}

/// Zeros behind.
pub(crate) fn right_pad_low(n: u16, w: u16, words: &[Word]) -> JetAnswer
    requires width { IsNarrow n }
    requires wide { IsNarrow w }
    requires less { n < w }
    requires widths { widths_of words.now ≡ n ∷ [] }
    ensures { results_of result ≡ outcome jet.RightPadLow n w (numbers_of words.now) }
{
    let a = one(n, words);
    zeros_last(n, w, a)
}

/// Ones behind.
pub(crate) fn right_pad_high(n: u16, w: u16, words: &[Word]) -> JetAnswer
    requires width { IsNarrow n }
    requires wide { IsNarrow w }
    requires less { n < w }
    requires widths { widths_of words.now ≡ n ∷ [] }
    ensures { results_of result ≡ outcome jet.RightPadHigh n w (numbers_of words.now) }
{
    let a = one(n, words);
    ones_last(n, w, a)
}

/// The last bit behind, as often as it takes.
pub(crate) fn right_extend(n: u16, w: u16, words: &[Word]) -> JetAnswer
    requires width { IsNarrow n }
    requires wide { IsNarrow w }
    requires less { n < w }
    requires widths { widths_of words.now ≡ n ∷ [] }
    ensures { results_of result ≡ outcome jet.RightExtend n w (numbers_of words.now) }
{
    let a = one(n, words);
    if a % 2 == 0 {
        zeros_last(n, w, a)
    } else {
        ones_last(n, w, a)
    }
}
