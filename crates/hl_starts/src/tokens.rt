//! What tokens begin: a word with the symbol after it, or one token.

ghost use Rattle.std.specs.Prelude.{◌≡◌};
ghost use Rattle.hl_grammar.specs.Read.{start_of};
ghost use Rattle.hl_grammar.specs.Read as read;

use crate::words::{begins_value, of_word, value_of_word};
use hl_cursor::{is_keyword, next_symbol};
use hl_syntax::{Symbol, Token, TokenKind};
use simplicityhl::ExprAlternative;

/// What a symbol begins.
fn of_symbol(symbol: Symbol) -> Option<ExprAlternative>
    ensures { result ≡ read.symbol_start symbol }
{
    match symbol {
        Symbol::OpenBrace => Some(ExprAlternative::Block),
        Symbol::OpenBracket => Some(ExprAlternative::Array),
        Symbol::Less => Some(ExprAlternative::Into),
        _ => None,
    }
}

/// Which alternative of an expression the tokens ahead begin.
#[tactic(auto, unfolding(hl_grammar::specs::Read::expr_start))]
fn start_expr(tokens: &[Token]) -> Option<ExprAlternative>
    ensures { result ≡ read.expr_start tokens.now }
{
    let (first, rest) = tokens.split_first()?;
    match &first.kind {
        TokenKind::Name(word) => of_word(word.as_str(), next_symbol(rest)),
        TokenKind::Literal(_) => Some(ExprAlternative::Literal),
        TokenKind::Symbol(symbol) => of_symbol(*symbol),
    }
}

/// Which alternative of a value text the first token begins.
#[tactic(auto, unfolding(hl_grammar::specs::Read::value_start))]
fn start_value(tokens: &[Token]) -> Option<ExprAlternative>
    ensures { result ≡ read.value_start tokens.now }
{
    let (first, _) = tokens.split_first()?;
    match &first.kind {
        TokenKind::Name(word) => value_of_word(word.as_str()),
        TokenKind::Literal(_) => Some(ExprAlternative::Literal),
        TokenKind::Symbol(Symbol::OpenBracket) => Some(ExprAlternative::Array),
        TokenKind::Symbol(_) => None,
    }
}

/// Which alternative of an expression, or of a value text, the tokens ahead begin.
pub fn start(values_only: bool, tokens: &[Token]) -> Option<ExprAlternative>
    ensures { result ≡ start_of values_only tokens.now }
{
    if values_only {
        start_value(tokens)
    } else {
        start_expr(tokens)
    }
}

/// Whether an expression, or a value text, begins here.
#[tactic(auto, unfolding(hl_grammar::specs::Read::begins_expr))]
pub fn begins(values_only: bool, tokens: &[Token]) -> bool
    ensures { result ≡ read.begins_expr values_only tokens.now }
{
    let Some((first, _)) = tokens.split_first() else {
        return false;
    };
    match &first.kind {
        TokenKind::Name(word) if values_only => begins_value(word.as_str()),
        TokenKind::Name(word) => word.as_str() == "match" || !is_keyword(word.as_str()),
        TokenKind::Literal(_) => true,
        TokenKind::Symbol(Symbol::OpenParenthesis | Symbol::OpenBracket) => true,
        TokenKind::Symbol(Symbol::OpenBrace | Symbol::Less) => !values_only,
        TokenKind::Symbol(_) => false,
    }
}

/// Whether an alternative may stand, in a value text where only those may.
pub fn is_allowed(values_only: bool, alternative: ExprAlternative) -> bool
    ensures { result ≡ read.allowed_by values_only alternative }
{
    match alternative {
        ExprAlternative::Array
        | ExprAlternative::List
        | ExprAlternative::Left
        | ExprAlternative::Right
        | ExprAlternative::Some
        | ExprAlternative::Nothing
        | ExprAlternative::True
        | ExprAlternative::False
        | ExprAlternative::Literal => true,
        _ => !values_only,
    }
}
