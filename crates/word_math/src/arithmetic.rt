//! Sums and differences.

ghost use Rattle.std.specs.Prelude.{◌≡◌, ◌+◌, ◌-◌, ◌*◌, ◌/◌, ◌%◌, ◌^◌, ◌<◌, ◌≤◌, IsTrue, nat_lt, [], ◌∷◌, Some};
ghost use Rattle.jets.specs.Unsigned.{is_width};
ghost use Rattle.jets.specs.Jet as jet;
ghost use Rattle.jets.specs.Jet.{amount, width_of};
ghost use Rattle.jets.specs.Formula.{outcome, bit, shifted_left, shifted_right, rotated};
ghost use Rattle.word_math.specs.Answer.{results_of, widths_of, numbers_of};
ghost use Rattle.word_math.specs.Widths.{IsNarrow, unsigned};

use crate::answer::JetAnswer;
use crate::arguments::{one, three, two};
use crate::word::Word;

/// A sum with at most one carry, as the carry and the last `n` bits.
fn carried(n: u16, sum: u128) -> JetAnswer
    requires width { IsNarrow n }
    requires fits { sum < 2 * 2 ^ n }
    ensures { results_of result ≡ Some (unsigned 1 (sum / 2 ^ n) ∷ unsigned n (sum % 2 ^ n) ∷ []) }
{
    let count = 1 << n;
    if sum < count {
        JetAnswer::Two(Word::narrow(1, 0), Word::narrow(n, sum))
    } else {
        JetAnswer::Two(Word::narrow(1, 1), Word::narrow(n, sum - count))
    }
}

/// `a - b` as the borrow and the last `n` bits.
fn borrowed(n: u16, a: u128, b: u128) -> JetAnswer
    requires width { IsNarrow n }
    requires first { a < 2 ^ n }
    requires second { b ≤ 2 ^ n }
    ensures { results_of result
        ≡ Some (unsigned 1 (bit (nat_lt a b)) ∷ unsigned n ((2 ^ n + a - b) % 2 ^ n) ∷ []) }
{
    if b <= a {
        JetAnswer::Two(Word::narrow(1, 0), Word::narrow(n, a - b))
    } else {
        JetAnswer::Two(Word::narrow(1, 1), Word::narrow(n, (1 << n) - (b - a)))
    }
}

/// Carry and sum of `a + b`.
pub(crate) fn add(n: u16, words: &[Word]) -> JetAnswer
    requires width { IsNarrow n }
    requires widths { widths_of words.now ≡ n ∷ n ∷ [] }
    ensures { results_of result ≡ outcome jet.Add n n (numbers_of words.now) }
{
    let (a, b) = two(n, n, words);
    carried(n, a + b)
}

/// Carry and sum of `a + b + c`.
pub(crate) fn full_add(n: u16, words: &[Word]) -> JetAnswer
    requires width { IsNarrow n }
    requires widths { widths_of words.now ≡ 1 ∷ n ∷ n ∷ [] }
    ensures { results_of result ≡ outcome jet.FullAdd n n (numbers_of words.now) }
{
    let (c, a, b) = three(1, n, n, words);
    carried(n, a + b + c)
}

/// Borrow and difference of `a - b`.
pub(crate) fn subtract(n: u16, words: &[Word]) -> JetAnswer
    requires width { IsNarrow n }
    requires widths { widths_of words.now ≡ n ∷ n ∷ [] }
    ensures { results_of result ≡ outcome jet.Subtract n n (numbers_of words.now) }
{
    let (a, b) = two(n, n, words);
    borrowed(n, a, b)
}

/// Borrow and difference of `a - b - c`.
pub(crate) fn full_subtract(n: u16, words: &[Word]) -> JetAnswer
    requires width { IsNarrow n }
    requires widths { widths_of words.now ≡ 1 ∷ n ∷ n ∷ [] }
    ensures { results_of result ≡ outcome jet.FullSubtract n n (numbers_of words.now) }
{
    let (c, a, b) = three(1, n, n, words);
    borrowed(n, a, b + c)
}

/// Carry and sum of `a + 1`.
pub(crate) fn increment(n: u16, words: &[Word]) -> JetAnswer
    requires width { IsNarrow n }
    requires widths { widths_of words.now ≡ n ∷ [] }
    ensures { results_of result ≡ outcome jet.Increment n n (numbers_of words.now) }
{
    let a = one(n, words);
    carried(n, a + 1)
}

/// Borrow and difference of `a - 1`.
pub(crate) fn decrement(n: u16, words: &[Word]) -> JetAnswer
    requires width { IsNarrow n }
    requires widths { widths_of words.now ≡ n ∷ [] }
    ensures { results_of result ≡ outcome jet.Decrement n n (numbers_of words.now) }
{
    let a = one(n, words);
    borrowed(n, a, 1)
}

/// Carry and sum of `a + c`.
pub(crate) fn full_increment(n: u16, words: &[Word]) -> JetAnswer
    requires width { IsNarrow n }
    requires widths { widths_of words.now ≡ 1 ∷ n ∷ [] }
    ensures { results_of result ≡ outcome jet.FullIncrement n n (numbers_of words.now) }
{
    let (c, a) = two(1, n, words);
    carried(n, a + c)
}

/// Borrow and difference of `a - c`.
pub(crate) fn full_decrement(n: u16, words: &[Word]) -> JetAnswer
    requires width { IsNarrow n }
    requires widths { widths_of words.now ≡ 1 ∷ n ∷ [] }
    ensures { results_of result ≡ outcome jet.FullDecrement n n (numbers_of words.now) }
{
    let (c, a) = two(1, n, words);
    borrowed(n, a, c)
}

/// Borrow and difference of `0 - a`.
pub(crate) fn negate(n: u16, words: &[Word]) -> JetAnswer
    requires width { IsNarrow n }
    requires widths { widths_of words.now ≡ n ∷ [] }
    ensures { results_of result ≡ outcome jet.Negate n n (numbers_of words.now) }
{
    let a = one(n, words);
    borrowed(n, 0, a)
}
