//! What each jet gives.

ghost use Rattle.std.specs.Prelude.{◌≡◌, IsTrue, map};
ghost use Rattle.jets.specs.Jet.{is_jet, argument_kinds, width_of};
ghost use Rattle.jets.specs.Formula.{outcome};
ghost use Rattle.word_math.specs.Op.{jet_of};
ghost use Rattle.word_math.specs.Answer.{results_of, widths_of, numbers_of};
ghost use Rattle.word_math.specs.Widths.{IsSized};

use crate::answer::JetAnswer;
use crate::op::Op;
use crate::word::Word;
use crate::{arithmetic, bits, compare, pad, product, shift};

/// What a jet gives: the results that its formula over whole numbers has, of the widths of its types. `Failed` comes for `verify` of 0 alone.
///
/// A jet of two widths has the lesser as `narrow` and the greater as `wide`; another has its width as both, and `verify` has 1.
/// A truth value is a word of width 1.
pub fn formula(op: Op, narrow: u16, wide: u16, arguments: &[Word]) -> JetAnswer
    requires jet { IsTrue (is_jet (jet_of op) narrow wide) }
    requires typed { widths_of arguments.now ≡ map width_of (argument_kinds (jet_of op) narrow wide) }
    ensures { results_of result ≡ outcome (jet_of op) narrow wide (numbers_of arguments.now) }
{
    answered(op, narrow, wide, arguments)
}

/// What a jet gives at widths that suit it.
fn answered(op: Op, narrow: u16, wide: u16, words: &[Word]) -> JetAnswer
    requires sized { IsSized (jet_of op) narrow wide }
    requires typed { widths_of words.now ≡ map width_of (argument_kinds (jet_of op) narrow wide) }
    ensures { results_of result ≡ outcome (jet_of op) narrow wide (numbers_of words.now) }
{
    match op {
        Op::Add => arithmetic::add(narrow, words),
        Op::FullAdd => arithmetic::full_add(narrow, words),
        Op::Subtract => arithmetic::subtract(narrow, words),
        Op::FullSubtract => arithmetic::full_subtract(narrow, words),
        Op::Increment => arithmetic::increment(narrow, words),
        Op::Decrement => arithmetic::decrement(narrow, words),
        Op::FullIncrement => arithmetic::full_increment(narrow, words),
        Op::FullDecrement => arithmetic::full_decrement(narrow, words),
        Op::Negate => arithmetic::negate(narrow, words),
        Op::Multiply => product::multiply(narrow, words),
        Op::FullMultiply => product::full_multiply(narrow, words),
        Op::DivMod => product::div_mod(narrow, words),
        Op::Divide => product::divide(narrow, words),
        Op::Modulo => product::modulo(narrow, words),
        Op::Divides => product::divides(narrow, words),
        Op::IsZero => compare::is_zero(narrow, words),
        Op::IsOne => compare::is_one(narrow, words),
        Op::Eq => compare::eq(narrow, words),
        Op::Lt => compare::lt(narrow, words),
        Op::Le => compare::le(narrow, words),
        Op::Min => compare::min(narrow, words),
        Op::Max => compare::max(narrow, words),
        Op::Median => compare::median(narrow, words),
        Op::Low => bits::low(narrow, words),
        Op::High => bits::high(narrow, words),
        Op::Complement => bits::complement(narrow, words),
        Op::And => bits::and(narrow, words),
        Op::Or => bits::or(narrow, words),
        Op::Xor => bits::xor(narrow, words),
        Op::Maj => bits::maj(narrow, words),
        Op::XorXor => bits::xor_xor(narrow, words),
        Op::Ch => bits::ch(narrow, words),
        Op::Some => bits::some(narrow, words),
        Op::All => bits::all(narrow, words),
        Op::Verify => bits::verify(words),
        Op::LeftShift => shift::left_shift(narrow, words),
        Op::RightShift => shift::right_shift(narrow, words),
        Op::LeftShiftWith => shift::left_shift_with(narrow, words),
        Op::RightShiftWith => shift::right_shift_with(narrow, words),
        Op::LeftRotate => shift::left_rotate(narrow, words),
        Op::RightRotate => shift::right_rotate(narrow, words),
        Op::Leftmost => pad::leftmost(narrow, wide, words),
        Op::Rightmost => pad::rightmost(narrow, wide, words),
        Op::LeftPadLow => pad::left_pad_low(narrow, wide, words),
        Op::LeftPadHigh => pad::left_pad_high(narrow, wide, words),
        Op::LeftExtend => pad::left_extend(narrow, wide, words),
        Op::RightPadLow => pad::right_pad_low(narrow, wide, words),
        Op::RightPadHigh => pad::right_pad_high(narrow, wide, words),
        Op::RightExtend => pad::right_extend(narrow, wide, words),
    }
}
