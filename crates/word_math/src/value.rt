//! Words as core values.

ghost use Rattle.std.specs.Prelude.{◌≡◌, ℕ, ◌-◌, ◌^◌, ◌<◌, ◌≤◌, ◌↔◌, IsTrue, IfOk, IfSome, IfNone};
ghost use Rattle.simplicity.specs.Types as core;
ghost use Rattle.simplicity.specs.Types.{word_value, word_count, UnitValue};
ghost use Rattle.simplicity.specs.Widths.{level_of};
ghost use Rattle.core_data.specs.Data.{value_of};
ghost use Rattle.jets.specs.Unsigned.{is_width};
ghost use Rattle.word_math.specs.Values.{IsWordOf, IsNoWordOf};

use crate::word::Word;
use core_data::CoreValue;
use std::alloc::{AllocError, Global};

/// The level of a width: 2^k has level k.
pub(crate) fn level(width: u16) -> u32
    requires { IsTrue (is_width width) }
    ensures value { result ≡ level_of width }
    ensures small { result ≤ 8 }
{
    match width {
        1 => 0,
        2 => 1,
        4 => 2,
        8 => 3,
        16 => 4,
        32 => 5,
        64 => 6,
        128 => 7,
        _ => 8,
    }
}

/// Half the width at a level.
fn half(level: u32) -> u32
    requires some { 0 < level }
    requires small { level ≤ 7 }
    ensures value { result ≡ 2 ^ (level - 1) }
    ensures small { result ≤ 64 }
{
    match level {
        1 => 1,
        2 => 2,
        3 => 4,
        4 => 8,
        5 => 16,
        6 => 32,
        _ => 64,
    }
}

fn bit_tree(alloc: Global, bit: bool) -> Result<CoreValue, AllocError>
    ensures { IfOk result (λ value. value_of value ≡ core.bit_value bit) }
{
    let unit = Box::new(alloc, CoreValue::Unit)?;
    if bit {
        Ok(CoreValue::Right(unit))
    } else {
        Ok(CoreValue::Left(unit))
    }
}

pub(crate) fn pair(
    alloc: Global,
    first: CoreValue,
    second: CoreValue,
) -> Result<CoreValue, AllocError>
    ensures { IfOk result (λ value. value_of value ≡ core.Pair (value_of first) (value_of second)) }
{
    let first = Box::new(alloc, first)?;
    let second = Box::new(alloc, second)?;
    Ok(CoreValue::Pair(first, second))
}

/// The value that the word of 2^level bits is.
pub(crate) fn word_tree(alloc: Global, level: u32, number: u128) -> Result<CoreValue, AllocError>
    requires { level ≤ 7 }
    ensures { IfOk result (λ value. value_of value ≡ word_value level number) }
{
    if level == 0 {
        let bit = bit_tree(alloc, number % 2 == 1)?;
        Ok(bit)
    } else {
        let behind = half(level);
        let first = word_tree(alloc, level - 1, number >> behind)?;
        let second = word_tree(alloc, level - 1, number % (1 << behind))?;
        let both = pair(alloc, first, second)?;
        Ok(both)
    }
}

fn is_unit(value: &CoreValue) -> bool
    ensures { IsTrue result ↔ (value_of value.now ≡ UnitValue) }
{
    match value {
        CoreValue::Unit => true,
        CoreValue::Left(_) => false,
        CoreValue::Right(_) => false,
        CoreValue::Pair(_, _) => false,
    }
}

/// The number of a bit's value.
fn bit_number(value: &CoreValue) -> Option<u128>
    ensures found { IfSome result (λ number. IsWordOf 0 number (value_of value.now)) }
    ensures none { IfNone result (IsNoWordOf 0 (value_of value.now)) }
{
    match value {
        CoreValue::Left(inner) => { if is_unit(inner) { Some(0) } else { None } }
        CoreValue::Right(inner) => { if is_unit(inner) { Some(1) } else { None } }
        CoreValue::Unit => None,
        CoreValue::Pair(_, _) => None,
    }
}

/// The number of a word's value of 2^level bits.
pub(crate) fn word_number(value: &CoreValue, level: u32) -> Option<u128>
    requires { level ≤ 7 }
    ensures found { IfSome result (λ number. IsWordOf level number (value_of value.now)) }
    ensures none { IfNone result (IsNoWordOf level (value_of value.now)) }
{
    if level == 0 {
        return bit_number(value);
    }
    match value {
        CoreValue::Pair(first, second) => {
            let behind = half(level);
            match word_number(first, level - 1) {
                None => None,
                Some(high) => match word_number(second, level - 1) {
                    None => None,
                    Some(low) => Some((high << behind) + low),
                },
            }
        }
        CoreValue::Unit => None,
        CoreValue::Left(_) => None,
        CoreValue::Right(_) => None,
    }
}

impl Word {
    /// The value of the core language that the word is: a bit, or the pair of its halves.
    pub fn to_value(&self, alloc: Global) -> Result<CoreValue, AllocError>
        ensures { IfOk result (λ value.
            value_of value ≡ word_value (level_of self.now.width) self.now.number) }
    {
        let level = level(self.width());
        if level == 8 {
            let first = word_tree(alloc, 7, self.high())?;
            let second = word_tree(alloc, 7, self.low())?;
            let both = pair(alloc, first, second)?;
            Ok(both)
        } else {
            let tree = word_tree(alloc, level, self.low())?;
            Ok(tree)
        }
    }

    /// The word that a value is; None where it is none of 1 to 256 bits.
    pub fn from_value(value: &CoreValue) -> Option<Word>
        ensures found { IfSome result (λ word.
            value_of value.now ≡ word_value (level_of word.width) word.number) }
        ensures none { IfNone result ((level : ℕ) → level ≤ 8 → IsNoWordOf level (value_of value.now)) }
    {
        for level in 0..8u32 {
            if let Some(number) = word_number(value, level) {
                return Some(narrow_word(level, number));
            }
        }
        widest_word(value)
    }
}

/// The word of 2^level bits with a number.
fn narrow_word(level: u32, number: u128) -> Word
    requires small { level ≤ 7 }
    requires fits { number < word_count level }
    ensures level { level_of result.width ≡ level }
    ensures number { result.number ≡ number }
{
    match level {
        0 => Word::narrow(1, number),
        1 => Word::narrow(2, number),
        2 => Word::narrow(4, number),
        3 => Word::narrow(8, number),
        4 => Word::narrow(16, number),
        5 => Word::narrow(32, number),
        6 => Word::narrow(64, number),
        _ => Word::narrow(128, number),
    }
}

/// The word of 256 bits that a value is.
fn widest_word(value: &CoreValue) -> Option<Word>
    ensures found { IfSome result (λ word.
        value_of value.now ≡ word_value (level_of word.width) word.number) }
    ensures none { IfNone result (IsNoWordOf 8 (value_of value.now)) }
{
    match value {
        CoreValue::Pair(first, second) => match word_number(first, 7) {
            None => None,
            Some(high) => match word_number(second, 7) {
                None => None,
                Some(low) => Word::new(256, high, low),
            },
        },
        CoreValue::Unit => None,
        CoreValue::Left(_) => None,
        CoreValue::Right(_) => None,
    }
}
