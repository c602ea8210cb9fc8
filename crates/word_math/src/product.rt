//! Products and quotients.

ghost use Rattle.std.specs.Prelude.{◌≡◌, ◌+◌, ◌-◌, ◌*◌, ◌/◌, ◌%◌, ◌^◌, ◌<◌, ◌≤◌, IsTrue, [], ◌∷◌, Some};
ghost use Rattle.jets.specs.Unsigned.{is_width};
ghost use Rattle.jets.specs.Jet as jet;
ghost use Rattle.jets.specs.Jet.{amount, width_of};
ghost use Rattle.jets.specs.Formula.{outcome, quotient, rest, shifted_left, shifted_right, rotated};
ghost use Rattle.word_math.specs.Answer.{results_of, widths_of, numbers_of};
ghost use Rattle.word_math.specs.Widths.{IsNarrow};

use crate::answer::JetAnswer;
use crate::arguments::{four, two};
use crate::compare::test;
use crate::word::Word;

/// The quotient, which is 0 by 0.
fn quotient_of(a: u128, b: u128) -> u128
    ensures value { result ≡ quotient a b }
    ensures least { result ≤ a }
{
    if b == 0 { 0 } else { a / b }
}

/// What division leaves; by 0 it leaves all.
fn rest_of(a: u128, b: u128) -> u128
    ensures value { result ≡ rest a b }
    ensures least { result ≤ a }
{
    if b == 0 { a } else { a % b }
}

/// The product at twice the width.
pub(crate) fn multiply(n: u16, words: &[Word]) -> JetAnswer
    requires width { IsNarrow n }
    requires twice { IsTrue (is_width (2 * n)) }
    requires widths { widths_of words.now ≡ n ∷ n ∷ [] }
    ensures { results_of result ≡ outcome jet.Multiply n n (numbers_of words.now) }
{
    let (a, b) = two(n, n, words);
    JetAnswer::One(Word::narrow(2 * n, a * b))
}

/// `a * b + c + d` at twice the width.
pub(crate) fn full_multiply(n: u16, words: &[Word]) -> JetAnswer
    requires width { IsNarrow n }
    requires twice { IsTrue (is_width (2 * n)) }
    requires widths { widths_of words.now ≡ n ∷ n ∷ n ∷ n ∷ [] }
    ensures { results_of result ≡ outcome jet.FullMultiply n n (numbers_of words.now) }
{
    let (a, b, c, d) = four(n, n, n, n, words);
    JetAnswer::One(Word::narrow(2 * n, a * b + c + d))
}

/// Quotient and rest; 0 and `a` by 0.
pub(crate) fn div_mod(n: u16, words: &[Word]) -> JetAnswer
    requires width { IsNarrow n }
    requires widths { widths_of words.now ≡ n ∷ n ∷ [] }
    ensures { results_of result ≡ outcome jet.DivMod n n (numbers_of words.now) }
{
    let (a, b) = two(n, n, words);
    JetAnswer::Two(
        Word::narrow(n, quotient_of(a, b)),
        Word::narrow(n, rest_of(a, b)),
    )
}

/// The quotient.
pub(crate) fn divide(n: u16, words: &[Word]) -> JetAnswer
    requires width { IsNarrow n }
    requires widths { widths_of words.now ≡ n ∷ n ∷ [] }
    ensures { results_of result ≡ outcome jet.Divide n n (numbers_of words.now) }
{
    let (a, b) = two(n, n, words);
    JetAnswer::One(Word::narrow(n, quotient_of(a, b)))
}

/// The rest.
pub(crate) fn modulo(n: u16, words: &[Word]) -> JetAnswer
    requires width { IsNarrow n }
    requires widths { widths_of words.now ≡ n ∷ n ∷ [] }
    ensures { results_of result ≡ outcome jet.Modulo n n (numbers_of words.now) }
{
    let (a, b) = two(n, n, words);
    JetAnswer::One(Word::narrow(n, rest_of(a, b)))
}

/// Whether `b` divided by `a` leaves nothing.
pub(crate) fn divides(n: u16, words: &[Word]) -> JetAnswer
    requires width { IsNarrow n }
    requires widths { widths_of words.now ≡ n ∷ n ∷ [] }
    ensures { results_of result ≡ outcome jet.Divides n n (numbers_of words.now) }
{
    let (a, b) = two(n, n, words);
    test(rest_of(b, a) == 0)
}
