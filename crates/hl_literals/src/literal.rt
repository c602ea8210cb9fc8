//! The numbers that literals spell.

ghost use Rattle.std.specs.Prelude.{◌≡◌, ◌<◌, ◌≤◌, ◌+◌, ◌*◌, ◌^◌, drop, IfNone, IfSome, IsTrue};
ghost use Rattle.std.specs.Char.{digit_value, is_ascii_digit, is_ascii_hexdigit};
ghost use Rattle.std.specs.List.{list_any};
ghost use Rattle.hl_meaning.specs.Literals.{based_value, literal_value};
ghost use Rattle.hl_literals.specs.Wide.{number_of};
ghost use Rattle.simplicityhl.specs.Kinds.{is_width};
ghost use Rattle.simplicityhl.specs.Tokens.{are_digits, is_hexadecimal};

use word_math::Word;

/// Half of the values of 128 bits.
const HALF: u128 = 0x1_0000_0000_0000_0000;

/// A number of at most 256 bits.
#[derive(Clone, Copy)]
pub(crate) struct Wide {
    high: u128,
    low: u128,
}

/// The value of a digit or a letter, 36 for any other byte.
fn digit_value(byte: u8) -> u8
    ensures { result ≡ digit_value byte }
{
    match byte {
        b'0'..=b'9' => byte - b'0',
        b'A'..=b'Z' => byte - 55,
        b'a'..=b'z' => byte - 87,
        _ => 36,
    }
}

/// A number with a digit after its own. None where it needs more than 256 bits.
fn with_digit(number: Wide, base: u8, digit: u8) -> Option<Wide>
    requires { base ≤ 16 }
    ensures found { IfSome result (λ next. number_of next ≡ number_of number * base + digit) }
    ensures none { IfNone result (2 ^ 256 ≤ number_of number * base + digit) }
{
    let base = u128::from(base);
    let first = number.low % HALF * base + u128::from(digit);
    let second = number.low / HALF * base + first / HALF;
    let low = second % HALF * HALF + first % HALF;
    let high = number.high.checked_mul(base)?.checked_add(second / HALF)?;
    Some(Wide { high, low })
}

/// The number that digits of a base spell, `_` between them left out. None where it needs more than
/// 256 bits.
fn based_number(digits: &[u8], base: u8) -> Option<Wide>
    requires some { 0 < base }
    requires few { base ≤ 16 }
    ensures found { IfSome result (λ number. number_of number ≡ based_value base digits.now) }
    ensures none { IfNone result (2 ^ 256 ≤ based_value base digits.now) }
{
    let mut number = Wide { high: 0, low: 0 };
    for byte in digits {
        if *byte != b'_' {
            number = with_digit(number, base, digit_value(*byte))?;
        }
    }
    Some(number)
}

/// Whether a word is of decimal digits and `_`.
fn is_decimal(word: &[u8]) -> bool
    ensures { result ≡ are_digits is_ascii_digit word.now }
{
    word.iter()
        .all(|byte| byte.is_ascii_digit() || *byte == b'_')
}

/// Whether a word is `0x`, hexadecimal digits and `_`, at least one digit.
fn is_hexadecimal(word: &[u8]) -> bool
    ensures { result ≡ is_hexadecimal word.now }
{
    match word {
        [b'0', b'x', digits @ ..] => {
            are_hexadecimal_digits(digits) && has_hexadecimal_digit(digits)
        }
        _ => false,
    }
}

fn are_hexadecimal_digits(digits: &[u8]) -> bool
    ensures { result ≡ are_digits is_ascii_hexdigit digits.now }
{
    digits
        .iter()
        .all(|byte| byte.is_ascii_hexdigit() || *byte == b'_')
}

fn has_hexadecimal_digit(digits: &[u8]) -> bool
    ensures { result ≡ list_any is_ascii_hexdigit digits.now }
{
    digits.iter().any(|byte| byte.is_ascii_hexdigit())
}

/// What stands after the two bytes that name the base.
fn after_base(word: &[u8]) -> &[u8]
    ensures { result.now ≡ drop 2 word.now }
{
    match word {
        [_, _, digits @ ..] => digits,
        _ => &[],
    }
}

/// The number that a literal spells. None where it needs more than 256 bits.
fn literal_number(word: &[u8]) -> Option<Wide>
    ensures found { IfSome result (λ number. number_of number ≡ literal_value word.now) }
    ensures none { IfNone result (2 ^ 256 ≤ literal_value word.now) }
{
    if is_decimal(word) {
        return based_number(word, 10);
    }
    let base = if is_hexadecimal(word) { 16 } else { 2 };
    based_number(after_base(word), base)
}

/// The word of a width that a literal spells. None where the number doesn't fit the width.
pub fn word_spelled(word: &str, width: u16) -> Option<Word>
    requires { IsTrue (is_width width) }
    ensures found { IfSome result (λ spelled.
        spelled ≡ record { width = width; number = literal_value word.now }) }
    ensures fits { IfSome result (λ spelled. literal_value word.now < 2 ^ width) }
    ensures none { IfNone result (2 ^ width ≤ literal_value word.now) }
{
    let number = literal_number(word.as_bytes())?;
    Word::new(width, number.high, number.low)
}
