//! Literals: decimal, hexadecimal and binary digits.

ghost use Rattle.std.specs.Prelude.{◌≡◌, ◌<◌, ◌^◌, ◌↔◌, ◌+◌, ◌*◌, ◌-◌, IsTrue, SomeIff};
ghost use Rattle.std.specs.Char.{is_ascii_digit, is_ascii_hexdigit};
ghost use Rattle.std.specs.List.{list_any};
ghost use Rattle.simplicityhl.specs.Tokens.{are_digits, decimal_value, is_hexadecimal, is_binary, is_binary_digit};

/// Whether a word is of decimal digits and `_`.
pub(crate) fn is_decimal(word: &[u8]) -> bool
    ensures { result ≡ are_digits is_ascii_digit word.now }
{
    word.iter()
        .all(|byte| byte.is_ascii_digit() || *byte == b'_')
}

/// Whether a word is `0x`, hexadecimal digits and `_`, at least one digit.
pub(crate) fn is_hexadecimal(word: &[u8]) -> bool
    ensures { result ≡ is_hexadecimal word.now }
{
    match word {
        [b'0', b'x', digits @ ..] => {
            are_hexadecimal_digits(digits) && has_hexadecimal_digit(digits)
        }
        _ => false,
    }
}

fn are_hexadecimal_digits(digits: &[u8]) -> bool
    ensures { result ≡ are_digits is_ascii_hexdigit digits.now }
{
    digits
        .iter()
        .all(|byte| byte.is_ascii_hexdigit() || *byte == b'_')
}

fn has_hexadecimal_digit(digits: &[u8]) -> bool
    ensures { result ≡ list_any is_ascii_hexdigit digits.now }
{
    digits.iter().any(|byte| byte.is_ascii_hexdigit())
}

/// Whether a word is `0b`, the digits 0 and 1 and `_`, at least one digit.
pub(crate) fn is_binary(word: &[u8]) -> bool
    ensures { result ≡ is_binary word.now }
{
    match word {
        [b'0', b'b', digits @ ..] => are_binary_digits(digits) && has_binary_digit(digits),
        _ => false,
    }
}

fn are_binary_digits(digits: &[u8]) -> bool
    ensures { result ≡ are_digits is_binary_digit digits.now }
{
    digits
        .iter()
        .all(|byte| is_binary_digit(*byte) || *byte == b'_')
}

fn has_binary_digit(digits: &[u8]) -> bool
    ensures { result ≡ list_any is_binary_digit digits.now }
{
    digits.iter().any(|byte| is_binary_digit(*byte))
}

fn is_binary_digit(byte: u8) -> bool
    ensures { result ≡ is_binary_digit byte }
{
    byte == b'0' || byte == b'1'
}

/// Whether the number that a word's digits spell is below 2^128; what isn't a digit is left out.
pub(crate) fn decimal_fits(word: &[u8]) -> bool
    ensures { IsTrue result ↔ (decimal_value word.now < 2 ^ 128) }
{
    let mut value = 0u128;
    for byte in word {
        if byte.is_ascii_digit() {
            match with_digit(value, *byte) {
                Some(next) => value = next,
                None => return false,
            }
        }
    }
    true
}

/// The number with a digit after its own, where it is below 2^128.
fn with_digit(value: u128, digit: u8) -> Option<u128>
    requires { IsTrue (is_ascii_digit digit) }
    ensures { SomeIff result (value * 10 + (digit - 48) < 2 ^ 128) (value * 10 + (digit - 48)) }
{
    value.checked_mul(10)?.checked_add(u128::from(digit - b'0'))
}
