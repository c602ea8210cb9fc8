//! Tokens of texts, and what is no token.

use hl_lex::{LexRefusal, tokens};
use hl_syntax::{Symbol, Token, TokenKind};
use std::alloc::{AllocError, Global};
use std::test::Fail;

/// Texts, and what becomes of them: each token with its span, or the refusal.
static ROWS: [(&str, &str); 31] = [
    ("", ""),
    (" \t\r\n", ""),
    ("fn main() { # }", "BadCharacter 12..13"),
    ("/* a", "OpenComment 0..4"),
    ("a /* * / /* b", "OpenComment 2..13"),
    ("/*/", "OpenComment 0..3"),
    ("/**/a", "`a` 4..5"),
    ("a/* */b", "`a` 0..1, `b` 6..7"),
    ("/* /* */ */", "BadCharacter 9..10"),
    ("a // b */ #\n/* // */ _", "`a` 0..1, Underscore 21..22"),
    ("a//", "`a` 0..1"),
    ("// \u{20ac}\n/*\u{20ac}*/a", "`a` 14..15"),
    ("a\u{20ac}", "BadCharacter 1..4"),
    ("\u{e9}", "BadCharacter 0..2"),
    ("\u{1f600} #", "BadCharacter 0..4"),
    ("\0", "BadCharacter 0..1"),
    (
        "340282366920938463463374607431768211455",
        "'340282366920938463463374607431768211455' 0..39",
    ),
    (
        " 340282366920938463463374607431768211456",
        "LiteralTooLarge 1..40",
    ),
    (
        "0340282366920938463463374607431768211455 0_",
        "'0340282366920938463463374607431768211455' 0..40, '0_' 41..43",
    ),
    (
        "3_40282366920938463463374607431768211456",
        "LiteralTooLarge 0..40",
    ),
    (
        "1_000 0x1F 0b_1 0xfF_",
        "'1_000' 0..5, '0x1F' 6..10, '0b_1' 11..15, '0xfF_' 16..21",
    ),
    ("0x_", "BadCharacter 0..3"),
    ("0b12", "BadCharacter 0..4"),
    ("12ab", "BadCharacter 0..4"),
    ("0X1 #", "BadCharacter 0..3"),
    (
        "_1 __ _ let Z9",
        "`_1` 0..2, `__` 3..5, Underscore 6..7, `let` 8..11, `Z9` 12..14",
    ),
    ("::=>", "DoubleColon 0..2, FatArrow 2..4"),
    (":::", "DoubleColon 0..2, Colon 2..3"),
    (
        "= ==>->",
        "Equals 0..1, Equals 2..3, FatArrow 3..5, Arrow 5..7",
    ),
    ("-", "BadCharacter 0..1"),
    (
        "(){}[]<>,;!",
        "OpenParenthesis 0..1, CloseParenthesis 1..2, OpenBrace 2..3, CloseBrace 3..4, OpenBracket 4..5, CloseBracket 5..6, Less 6..7, Greater 7..8, Comma 8..9, Semicolon 9..10, Exclamation 10..11",
    ),
];

fn write_token(text: &mut String, token: &Token) -> Result<(), AllocError> {
    match &token.kind {
        TokenKind::Name(word) => write!(text, "`{}`", word.as_str())?,
        TokenKind::Literal(word) => write!(text, "'{}'", word.as_str())?,
        TokenKind::Symbol(symbol) => write!(text, "{symbol:?}")?,
    }
    write!(text, " {}..{}", token.span.start, token.span.end)
}

fn write_refusal(text: &mut String, refusal: LexRefusal) -> Result<(), AllocError> {
    match refusal {
        LexRefusal::BadCharacter { span } => write!(
            text,
            "BadCharacter {}..{}",
            span.start, span.end
        ),
        LexRefusal::OpenComment { span } => write!(
            text,
            "OpenComment {}..{}",
            span.start, span.end
        ),
        LexRefusal::LiteralTooLarge { span } => {
            write!(text, "LiteralTooLarge {}..{}", span.start, span.end)
        }
        LexRefusal::OutOfMemory => text.push_str("OutOfMemory"),
    }
}

fn shown(alloc: Global, text: &str) -> Result<String, AllocError> {
    let mut shown = String::new(alloc);
    match tokens(alloc, text) {
        Ok(list) => {
            for (index, token) in list.as_slice().iter().enumerate() {
                if index > 0 {
                    shown.push_str(", ")?;
                }
                write_token(&mut shown, token)?;
            }
        }
        Err(refusal) => write_refusal(&mut shown, refusal)?,
    }
    Ok(shown)
}

#[test]
fn tokens_of_rows(rt: HostRuntime) -> Result<(), Fail> {
    for (text, wanted) in ROWS.iter() {
        let got = shown(rt.alloc(), text)?;
        assert_eq!(rt; got.as_str(), *wanted, "at {text}");
    }
    Ok(())
}
