//! What words begin: which alternative of an expression a word begins, with the symbol after it,
//! and which of a value text a word begins alone.

ghost use Rattle.std.specs.Prelude.{◌≡◌};
ghost use Rattle.simplicityhl.specs.Grammar.{is_among};
ghost use Rattle.hl_grammar.specs.Read.{value_words};
ghost use Rattle.hl_grammar.specs.Read as read;

use hl_cursor::is_keyword;
use hl_syntax::Symbol;
use simplicityhl::ExprAlternative;

/// What a word begins whatever stands next.
#[tactic(auto, unfolding(hl_grammar::specs::Read::before_others))]
fn before_others(word: &str) -> ExprAlternative
    ensures { result ≡ read.before_others word.now }
{
    if word == "None" {
        ExprAlternative::Nothing
    } else if word == "true" {
        ExprAlternative::True
    } else if word == "false" {
        ExprAlternative::False
    } else {
        ExprAlternative::Name
    }
}

/// What a word before `!` begins.
#[tactic(auto, unfolding(hl_grammar::specs::Read::before_exclamation))]
fn before_exclamation(word: &str) -> ExprAlternative
    ensures { result ≡ read.before_exclamation word.now }
{
    if word == "list" {
        ExprAlternative::List
    } else if word == "assert" {
        ExprAlternative::Assert
    } else if word == "dbg" {
        ExprAlternative::Dbg
    } else if word == "panic" {
        ExprAlternative::Panic
    } else {
        before_others(word)
    }
}

/// What a loop's word before `::` begins.
#[tactic(auto, unfolding(hl_grammar::specs::Read::loop_before_colons))]
fn loop_before_colons(word: &str) -> ExprAlternative
    ensures { result ≡ read.loop_before_colons word.now }
{
    if word == "fold" {
        ExprAlternative::Fold
    } else if word == "array_fold" {
        ExprAlternative::ArrayFold
    } else if word == "for_while" {
        ExprAlternative::ForWhile
    } else {
        before_others(word)
    }
}

/// What a word before `::` begins.
#[tactic(auto, unfolding(hl_grammar::specs::Read::before_colons))]
fn before_colons(word: &str) -> ExprAlternative
    ensures { result ≡ read.before_colons word.now }
{
    if word == "jet" {
        ExprAlternative::Jet
    } else if word == "witness" {
        ExprAlternative::Witness
    } else if word == "param" {
        ExprAlternative::Param
    } else if word == "unwrap_left" {
        ExprAlternative::UnwrapLeft
    } else if word == "unwrap_right" {
        ExprAlternative::UnwrapRight
    } else if word == "is_none" {
        ExprAlternative::IsNone
    } else {
        loop_before_colons(word)
    }
}

/// What a word before `(` begins.
#[tactic(auto, unfolding(hl_grammar::specs::Read::before_parenthesis))]
fn before_parenthesis(word: &str) -> ExprAlternative
    ensures { result ≡ read.before_parenthesis word.now }
{
    if word == "unwrap" {
        ExprAlternative::Unwrap
    } else if word == "Left" {
        ExprAlternative::Left
    } else if word == "Right" {
        ExprAlternative::Right
    } else if word == "Some" {
        ExprAlternative::Some
    } else {
        ExprAlternative::Call
    }
}

/// What a word that is no keyword begins.
fn named(word: &str, next: Option<Symbol>) -> ExprAlternative
    ensures { result ≡ read.named_expr word.now next }
{
    match next {
        Some(Symbol::Exclamation) => before_exclamation(word),
        Some(Symbol::DoubleColon) => before_colons(word),
        Some(Symbol::OpenParenthesis) => before_parenthesis(word),
        _ => before_others(word),
    }
}

/// What a word begins.
pub(crate) fn of_word(word: &str, next: Option<Symbol>) -> Option<ExprAlternative>
    ensures { result ≡ read.word_start word.now next }
{
    if word == "match" {
        Some(ExprAlternative::Match)
    } else if is_keyword(word) {
        None
    } else {
        Some(named(word, next))
    }
}

/// What a word begins in a value text.
#[tactic(auto, unfolding(hl_grammar::specs::Read::word_value))]
pub(crate) fn value_of_word(word: &str) -> Option<ExprAlternative>
    ensures { result ≡ read.word_value word.now }
{
    if word == "list" {
        Some(ExprAlternative::List)
    } else if word == "Left" {
        Some(ExprAlternative::Left)
    } else if word == "Right" {
        Some(ExprAlternative::Right)
    } else if word == "Some" {
        Some(ExprAlternative::Some)
    } else if word == "None" {
        Some(ExprAlternative::Nothing)
    } else if word == "true" {
        Some(ExprAlternative::True)
    } else if word == "false" {
        Some(ExprAlternative::False)
    } else {
        None
    }
}

/// Whether a word begins a value text.
pub(crate) fn begins_value(word: &str) -> bool
    ensures { result ≡ is_among value_words word.now }
{
    word == "list"
        || word == "Left"
        || word == "Right"
        || word == "Some"
        || word == "None"
        || word == "true"
        || word == "false"
}
