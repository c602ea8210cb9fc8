//! Shifts and rotations.

ghost use Rattle.std.specs.Prelude.{◌≡◌, ◌+◌, ◌-◌, ◌*◌, ◌/◌, ◌%◌, ◌^◌, ◌<◌, ◌≤◌, IsTrue, [], ◌∷◌, Some};
ghost use Rattle.jets.specs.Unsigned.{is_width};
ghost use Rattle.jets.specs.Jet as jet;
ghost use Rattle.jets.specs.Jet.{amount, width_of};
ghost use Rattle.jets.specs.Formula.{outcome, bit, shifted_left, shifted_right, rotated};
ghost use Rattle.word_math.specs.Answer.{results_of, widths_of, numbers_of};
ghost use Rattle.word_math.specs.Widths.{IsNarrow, unsigned};

use crate::answer::JetAnswer;
use crate::arguments::{three, two};
use crate::word::Word;

/// The width of a shift's amount.
fn amount_width(n: u16) -> u16
    ensures value { result ≡ width_of (amount n) }
    ensures small { result ≤ 8 }
{
    if n < 32 { 4 } else { 8 }
}

/// So many bits that are all as `fill`.
fn filled(fill: u128, places: u16) -> u128
    requires bit { fill < 2 }
    requires small { places ≤ 64 }
    ensures { result ≡ fill * (2 ^ places - 1) }
{
    if fill == 0 { 0 } else { (1 << places) - 1 }
}

/// `a` moved to the left, with `fill` in the places that fall free.
fn left(n: u16, fill: u128, places: u128, a: u128) -> JetAnswer
    requires width { IsNarrow n }
    requires bit { fill < 2 }
    requires small { places < 2 ^ 8 }
    requires fits { a < 2 ^ n }
    ensures { results_of result ≡ Some (unsigned n (shifted_left n fill places a) ∷ []) }
{
    let shift = places as u16;
    if shift < n {
        let whole = (a << shift) + filled(fill, shift);
        JetAnswer::One(Word::narrow(n, whole % (1 << n)))
    } else {
        JetAnswer::One(Word::narrow(n, filled(fill, n)))
    }
}

/// `a` moved to the right, with `fill` in the places that fall free.
fn right(n: u16, fill: u128, places: u128, a: u128) -> JetAnswer
    requires width { IsNarrow n }
    requires bit { fill < 2 }
    requires small { places < 2 ^ 8 }
    requires fits { a < 2 ^ n }
    ensures { results_of result ≡ Some (unsigned n (shifted_right n fill places a) ∷ []) }
{
    let moved = places as u16;
    if moved < n {
        let free = filled(fill, moved) << (n - moved);
        JetAnswer::One(Word::narrow(n, (a >> moved) + free))
    } else {
        JetAnswer::One(Word::narrow(n, filled(fill, n)))
    }
}

/// `a` with its first `places` bits put behind the others.
fn rotate(n: u16, places: u16, a: u128) -> JetAnswer
    requires width { IsNarrow n }
    requires small { places ≤ n }
    requires fits { a < 2 ^ n }
    ensures { results_of result ≡ Some (unsigned n (rotated n places a) ∷ []) }
{
    let front = (a << places) % (1 << n);
    let back = a >> (n - places);
    JetAnswer::One(Word::narrow(n, front + back))
}

/// To the left, zeros behind.
pub(crate) fn left_shift(n: u16, words: &[Word]) -> JetAnswer
    requires width { IsNarrow n }
    requires widths { widths_of words.now ≡ width_of (amount n) ∷ n ∷ [] }
    ensures { results_of result ≡ outcome jet.LeftShift n n (numbers_of words.now) }
{
    let (s, a) = two(amount_width(n), n, words);
    left(n, 0, s, a)
}

/// To the right, zeros before.
pub(crate) fn right_shift(n: u16, words: &[Word]) -> JetAnswer
    requires width { IsNarrow n }
    requires widths { widths_of words.now ≡ width_of (amount n) ∷ n ∷ [] }
    ensures { results_of result ≡ outcome jet.RightShift n n (numbers_of words.now) }
{
    let (s, a) = two(amount_width(n), n, words);
    right(n, 0, s, a)
}

/// To the left, the given bit behind.
pub(crate) fn left_shift_with(n: u16, words: &[Word]) -> JetAnswer
    requires width { IsNarrow n }
    requires widths { widths_of words.now ≡ 1 ∷ width_of (amount n) ∷ n ∷ [] }
    ensures { results_of result ≡ outcome jet.LeftShiftWith n n (numbers_of words.now) }
{
    let (f, s, a) = three(1, amount_width(n), n, words);
    left(n, f, s, a)
}

/// To the right, the given bit before.
pub(crate) fn right_shift_with(n: u16, words: &[Word]) -> JetAnswer
    requires width { IsNarrow n }
    requires widths { widths_of words.now ≡ 1 ∷ width_of (amount n) ∷ n ∷ [] }
    ensures { results_of result ≡ outcome jet.RightShiftWith n n (numbers_of words.now) }
{
    let (f, s, a) = three(1, amount_width(n), n, words);
    right(n, f, s, a)
}

/// Rotated to the left.
pub(crate) fn left_rotate(n: u16, words: &[Word]) -> JetAnswer
    requires width { IsNarrow n }
    requires widths { widths_of words.now ≡ width_of (amount n) ∷ n ∷ [] }
    ensures { results_of result ≡ outcome jet.LeftRotate n n (numbers_of words.now) }
{
    let (s, a) = two(amount_width(n), n, words);
    let turn = s as u16 % n;
    rotate(n, turn, a)
}

/// Rotated to the right.
pub(crate) fn right_rotate(n: u16, words: &[Word]) -> JetAnswer
    requires width { IsNarrow n }
    requires widths { widths_of words.now ≡ width_of (amount n) ∷ n ∷ [] }
    ensures { results_of result ≡ outcome jet.RightRotate n n (numbers_of words.now) }
{
    let (s, a) = two(amount_width(n), n, words);
    let turn = s as u16 % n;
    rotate(n, n - turn, a)
}
