//! Symbols: the longest that a text begins with.

ghost use Rattle.std.specs.Prelude.{◌≡◌, ◌≤◌, length};
ghost use Rattle.simplicityhl.specs.Tokens.{symbol_of, symbol_text};

use hl_syntax::Symbol;

/// The longest symbol that a text begins with.
pub(crate) fn symbol_at(text: &[u8]) -> Option<Symbol>
    ensures { result ≡ symbol_of text.now }
{
    match text {
        [b':', b':', ..] => Some(Symbol::DoubleColon),
        [b'=', b'>', ..] => Some(Symbol::FatArrow),
        [b'-', b'>', ..] => Some(Symbol::Arrow),
        [b'(', ..] => Some(Symbol::OpenParenthesis),
        [b')', ..] => Some(Symbol::CloseParenthesis),
        [b'{', ..] => Some(Symbol::OpenBrace),
        [b'}', ..] => Some(Symbol::CloseBrace),
        [b'[', ..] => Some(Symbol::OpenBracket),
        [b']', ..] => Some(Symbol::CloseBracket),
        [b'<', ..] => Some(Symbol::Less),
        [b'>', ..] => Some(Symbol::Greater),
        [b',', ..] => Some(Symbol::Comma),
        [b';', ..] => Some(Symbol::Semicolon),
        [b':', ..] => Some(Symbol::Colon),
        [b'=', ..] => Some(Symbol::Equals),
        [b'!', ..] => Some(Symbol::Exclamation),
        _ => None,
    }
}

/// The number of bytes of a symbol.
pub(crate) fn symbol_size(symbol: Symbol) -> usize
    ensures size { result ≡ length (symbol_text symbol) }
    ensures within { result ≤ 2 }
{
    match symbol {
        Symbol::DoubleColon | Symbol::FatArrow | Symbol::Arrow => 2,
        _ => 1,
    }
}
