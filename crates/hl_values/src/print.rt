//! The texts of values.

ghost use Rattle.std.specs.Prelude.{◌≡◌, ◌<◌, ◌++◌, [], map, length, codes, string_bytes, IfOk, IsTrue};
ghost use Rattle.hl_values.specs.Printed.{hexadecimal, hexadecimal_digit, joined, number_text, printed, separator, tuple_end};

use hl_data::{HlValue, HlValues};
use std::alloc::{AllocError, Global};
use word_math::Word;

/// A hexadecimal digit in lower case.
fn hexadecimal_digit(digit: u8) -> char
    requires { digit < 16 }
    ensures { result ≡ hexadecimal_digit digit }
{
    if digit < 10 {
        char::from(b'0' + digit)
    } else {
        char::from(b'a' + (digit - 10))
    }
}

/// The 32 hexadecimal digits of a number.
fn write_hexadecimal(text: &mut String, number: u128) -> Result<(), AllocError>
    ensures { IfOk result (λ _. string_bytes text.new ≡ string_bytes text.old ++ hexadecimal 32 number) }
{
    for done in 0..32u32 {
        let digit = (number >> (4 * (31 - done))) % 16;
        text.push(hexadecimal_digit(digit as u8))?;
    }
    Ok(())
}

/// A number in decimal, or of 256 bits as `0x` and 64 digits.
fn write_number(text: &mut String, word: &Word) -> Result<(), AllocError>
    ensures { IfOk result (λ _. string_bytes text.new ≡ string_bytes text.old ++ number_text word.now) }
{
    if word.width() == 256 {
        text.push_str("0x")?;
        write_hexadecimal(text, word.high())?;
        write_hexadecimal(text, word.low())?;
        return Ok(());
    }
    write!(text, "{}", word.low())
}

/// What stands before the value at a place: nothing before the first, `, ` before the others.
fn write_separator(text: &mut String, place: usize) -> Result<(), AllocError>
    ensures { IfOk result (λ _. string_bytes text.new ≡ string_bytes text.old ++ separator place) }
{
    if place == 0 {
        return Ok(());
    }
    text.push_str(", ")
}

/// The end of a tuple of so many parts.
fn write_tuple_end(text: &mut String, count: usize) -> Result<(), AllocError>
    ensures { IfOk result (λ _. string_bytes text.new ≡ string_bytes text.old ++ tuple_end count) }
{
    if count == 1 {
        return text.push_str(",)");
    }
    text.push_str(")")
}

/// Texts of values with `, ` between them.
#[cycle(print)]
pub(crate) fn write_joined(text: &mut String, values: &HlValues) -> Result<(), AllocError>
    ensures { IfOk result (λ _.
        string_bytes text.new ≡ string_bytes text.old ++ joined (map printed values.now)) }
{
    'values: for (place, value) in values.as_slice().iter().enumerate() {
        write_separator(text, place)?;
        write_value(text, value)?;
    }
    Ok(())
}

/// The text of a value.
#[cycle(print)]
pub(crate) fn write_value(text: &mut String, value: &HlValue) -> Result<(), AllocError>
    ensures { IfOk result (λ _. string_bytes text.new ≡ string_bytes text.old ++ printed value.now) }
{
    match value {
        HlValue::Bool(true) => Ok(text.push_str("true")?),
        HlValue::Bool(false) => Ok(text.push_str("false")?),
        HlValue::Number(word) => Ok(write_number(text, word)?),
        HlValue::Tuple(parts) => {
            text.push_str("(")?;
            write_joined(text, parts)?;
            Ok(write_tuple_end(text, parts.len())?)
        }
        HlValue::Array(items) => {
            text.push_str("[")?;
            write_joined(text, items)?;
            Ok(text.push_str("]")?)
        }
        HlValue::List(items) => {
            text.push_str("list![")?;
            write_joined(text, items)?;
            Ok(text.push_str("]")?)
        }
        HlValue::Nothing => Ok(text.push_str("None")?),
        HlValue::Some(part) => Ok(write_tagged(text, "Some(", part.get())?),
        HlValue::Left(part) => Ok(write_tagged(text, "Left(", part.get())?),
        HlValue::Right(part) => Ok(write_tagged(text, "Right(", part.get())?),
    }
}

/// The text of a value in parentheses, after a word with the first of them.
#[cycle(print)]
pub(crate) fn write_tagged(text: &mut String, tag: &str, part: &HlValue) -> Result<(), AllocError>
    ensures { IfOk result (λ _. string_bytes text.new ≡ string_bytes text.old
        ++ (tag.now ++ printed part.now ++ codes ")")) }
{
    text.push_str(tag)?;
    write_value(text, part)?;
    Ok(text.push_str(")")?)
}

/// The text of a value: numbers in decimal, of 256 bits as `0x` and 64 digits in lower case; items
/// joined by `, `; a tuple of one with a comma.
pub fn print_value(alloc: Global, value: &HlValue) -> Result<String, AllocError>
    ensures { IfOk result (λ text. string_bytes text ≡ printed value.now) }
{
    let mut text = String::new(alloc);
    write_value(&mut text, value)?;
    Ok(text)
}
