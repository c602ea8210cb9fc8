//! Tokens, and places in a text.

use lists::{Sequence, Text};

/// The bytes of a text from `start` up to and without `end`.
#[derive(Clone, Copy, PartialEq, Eq, Debug)]
pub struct Span {
    pub start: u64,
    pub end: u64,
}

/// A name or a number as it stands in the text, and where.
#[derive(Drop)]
pub struct Mark {
    pub text: Text,
    pub span: Span,
}

/// A token and the bytes that it takes up.
#[derive(Drop)]
pub struct Token {
    pub kind: TokenKind,
    pub span: Span,
}

/// What a token is.
#[derive(Drop)]
pub enum TokenKind {
    /// A word that is no literal and not `_`; keywords are names here.
    Name(Text),
    /// A decimal, hexadecimal or binary literal as it stands.
    Literal(Text),
    Symbol(Symbol),
}

/// The symbols, each with its spelling.
#[derive(Clone, Copy, PartialEq, Eq, Debug)]
pub enum Symbol {
    /// `(`
    OpenParenthesis,
    /// `)`
    CloseParenthesis,
    /// `{`
    OpenBrace,
    /// `}`
    CloseBrace,
    /// `[`
    OpenBracket,
    /// `]`
    CloseBracket,
    /// `<`
    Less,
    /// `>`
    Greater,
    /// `,`
    Comma,
    /// `;`
    Semicolon,
    /// `:`
    Colon,
    /// `::`
    DoubleColon,
    /// `=`
    Equals,
    /// `=>`
    FatArrow,
    /// `->`
    Arrow,
    /// `!`
    Exclamation,
    /// `_`
    Underscore,
}

/// The tokens of a text, in the text's order.
pub type TokenList = Sequence<Token>;
