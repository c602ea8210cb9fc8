//! What stands at the front of a text: white space, a comment, a token, a fault.

ghost use Rattle.std.specs.Prelude.{◌≡◌, ◌<◌, ◌≤◌, ◌+◌, length, IfOk, [], ◌∷◌};
ghost use Rattle.std.specs.List.{prefix_len};
ghost use Rattle.std.specs.Prelude.{IsUtf8, IfSome, drop};
ghost use Rattle.simplicityhl.specs.Tokens.{is_white_space, is_word_byte, is_no_line_feed, closer_end, block_comment, character_size, word_reading, number_reading, begins_with_digit, symbol_of, symbol_front, front};
ghost use Rattle.hl_lex.specs.Seen.{reading_of, front_of, word_front};

use crate::literal::{decimal_fits, is_binary, is_decimal, is_hexadecimal};
use crate::symbol::{symbol_at, symbol_size};
use hl_syntax::{Symbol, TokenKind};
use lists::Text;
use std::alloc::{AllocError, Global};

/// What may be wrong at a place.
#[derive(Clone, Copy)]
pub(crate) enum Fault {
    BadCharacter,
    OpenComment,
    LiteralTooLarge,
}

/// What some bytes are: white space or a comment, a token, a fault.
#[derive(Drop)]
pub(crate) enum Reading {
    Dropped,
    Token(TokenKind),
    Fault(Fault),
}

/// What stands at the front of a text, and how many bytes it takes up.
#[derive(Drop)]
pub(crate) struct Front {
    pub(crate) reading: Reading,
    pub(crate) size: usize,
}

/// What stands at the front of a text; nothing does where it is empty.
pub(crate) fn read_front(alloc: Global, text: &[u8]) -> Result<Front, AllocError>
    ensures found { IfOk result (λ found. front_of found ≡ front text.now) }
    // A character that is cut off by the text's end counts whole.
    ensures within { IfOk result (λ found. found.size ≤ length text.now + 3) }
{
    let Some(first) = text.first() else {
        return Ok(dropped(0));
    };
    if is_white_space(*first) {
        Ok(dropped(1))
    } else if text.starts_with(b"//") {
        Ok(dropped(line_size(text)))
    } else if text.starts_with(b"/*") {
        Ok(comment(text))
    } else if is_word_byte(*first) {
        word(alloc, text)
    } else {
        Ok(symbol(*first, text))
    }
}

fn dropped(size: usize) -> Front
    ensures { result ≡ record { reading = Reading.Dropped; size = size } }
{
    Front {
        reading: Reading::Dropped,
        size,
    }
}

fn is_white_space(byte: u8) -> bool
    ensures { result ≡ is_white_space byte }
{
    byte == b' ' || byte == b'\t' || byte == b'\r' || byte == b'\n'
}

fn is_word_byte(byte: u8) -> bool
    ensures { result ≡ is_word_byte byte }
{
    byte.is_ascii_alphanumeric() || byte == b'_'
}

/// The number of bytes before the first line feed, or of all.
fn line_size(text: &[u8]) -> usize
    ensures size { result ≡ prefix_len is_no_line_feed text.now }
    ensures within { result ≤ length text.now }
{
    for (size, byte) in text.iter().enumerate() {
        if *byte == b'\n' {
            return size;
        }
    }
    text.len()
}

/// The number of bytes of the word at the front of a text.
fn word_size(text: &[u8]) -> usize
    ensures size { result ≡ prefix_len is_word_byte text.now }
    ensures within { result ≤ length text.now }
{
    for (size, byte) in text.iter().enumerate() {
        if !is_word_byte(*byte) {
            return size;
        }
    }
    text.len()
}

/// The number of bytes up to and with the first `*/`.
fn closer_end(text: &[u8]) -> Option<usize>
    ensures found { result ≡ closer_end text.now }
    ensures within { IfSome result (λ end. end ≤ length text.now) }
{
    for place in 0..text.len() {
        let (_, rest) = text.split_at(place);
        if rest.starts_with(b"*/") {
            return Some(place + 2);
        }
    }
    None
}

/// The comment at the front of a text that begins with `/*`.
fn comment(text: &[u8]) -> Front
    requires { 2 ≤ length text.now }
    ensures found { front_of result ≡ block_comment text.now (closer_end (drop 2 text.now)) }
    ensures within { result.size ≤ length text.now }
{
    let (_, rest) = text.split_at(2);
    match closer_end(rest) {
        Some(size) => dropped(2 + size),
        None => Front {
            reading: Reading::Fault(Fault::OpenComment),
            size: text.len(),
        },
    }
}

/// The word at the front of a text.
fn word(alloc: Global, text: &[u8]) -> Result<Front, AllocError>
    ensures found { IfOk result (λ found. front_of found ≡ word_front text.now) }
    ensures within { IfOk result (λ found. found.size ≤ length text.now) }
{
    let size = word_size(text);
    let (word, _) = text.split_at(size);
    let reading = read_word(alloc, word)?;
    Ok(Front { reading, size })
}

/// What a word is: a symbol, a name, a literal, or a fault.
fn read_word(alloc: Global, word: &[u8]) -> Result<Reading, AllocError>
    requires { IsUtf8 word.now }
    ensures { IfOk result (λ reading. reading_of reading ≡ word_reading word.now) }
{
    if word == b"_".as_slice() {
        return Ok(Reading::Token(TokenKind::Symbol(Symbol::Underscore)));
    }
    if begins_with_digit(word) {
        return read_number(alloc, word);
    }
    let name = Text::from_bytes(alloc, word)?;
    Ok(Reading::Token(TokenKind::Name(name)))
}

fn begins_with_digit(word: &[u8]) -> bool
    ensures { result ≡ begins_with_digit word.now }
{
    match word {
        [first, ..] => first.is_ascii_digit(),
        [] => false,
    }
}

/// What a word is that begins with a digit: a literal, or a fault.
fn read_number(alloc: Global, word: &[u8]) -> Result<Reading, AllocError>
    requires { IsUtf8 word.now }
    ensures { IfOk result (λ reading. reading_of reading ≡ number_reading word.now) }
{
    if is_decimal(word) {
        if !decimal_fits(word) {
            return Ok(Reading::Fault(Fault::LiteralTooLarge));
        }
    } else if !is_hexadecimal(word) && !is_binary(word) {
        return Ok(Reading::Fault(Fault::BadCharacter));
    }
    let literal = Text::from_bytes(alloc, word)?;
    Ok(Reading::Token(TokenKind::Literal(literal)))
}

/// The symbol at the front of a text, or the character that begins with this byte as a fault.
fn symbol(first: u8, text: &[u8]) -> Front
    ensures found { front_of result ≡ symbol_front first (symbol_of text.now) }
    ensures within { result.size ≤ 4 }
{
    match symbol_at(text) {
        Some(symbol) => Front {
            reading: Reading::Token(TokenKind::Symbol(symbol)),
            size: symbol_size(symbol),
        },
        None => Front {
            reading: Reading::Fault(Fault::BadCharacter),
            size: character_size(first),
        },
    }
}

/// The number of bytes of the character that begins with a byte.
fn character_size(first: u8) -> usize
    ensures size { result ≡ character_size first }
    ensures within { result ≤ 4 }
{
    match first {
        0..=127 => 1,
        128..=223 => 2,
        224..=239 => 3,
        _ => 4,
    }
}
