//! The cursor: the tokens that are left, each taken where it is the one that is asked for.
//!
//! Where a token is refused, the cursor stays at it.

ghost use Rattle.std.specs.Prelude.{◌≡◌, suc, length, not, false, if◌then◌else◌};
ghost use Rattle.simplicityhl.specs.Parts.{span_between, span_of, last_end};
ghost use Rattle.simplicityhl.specs.Grammar.{is_symbol, is_word, is_among, keywords, applied_words, constants, mark};
ghost use Rattle.simplicityhl.specs.Tokens.{are_digits};
ghost use Rattle.std.specs.Char.{is_ascii_digit};
ghost use Rattle.hl_grammar.specs.Readers.{end, is_end};
ghost use Rattle.hl_grammar.specs.Read.{is_at, is_at_word};
ghost use Rattle.hl_grammar.specs.Read as read;
ghost use Rattle.hl_cursor.specs.Gives.{Gives, Reads, Takes};

use crate::refused::Refused;
use hl_syntax::{Mark, Span, Symbol, Token, TokenKind};
use std::marker::Model;

/// The tokens that are left, which is what a contract sees: a list of tokens, the next one first.
#[derive(Drop)]
pub struct Cursor<'a> {
    rest: &'a [Token],
}

impl<'a> Model for Cursor<'a> {
    ghost use Rattle.std.specs.Prelude.{List};
    ghost use Rattle.hl_syntax.specs.declared.token.Token.{Token};

    ghost Value = { List Token };

    ghost view = { λ cursor. cursor.rest.now };
}

/// Whether a token is this symbol.
fn is_symbol(token: &Token, symbol: Symbol) -> bool
    ensures { result ≡ is_symbol symbol token.now.kind }
{
    match &token.kind {
        TokenKind::Symbol(other) => *other == symbol,
        _ => false,
    }
}

/// Whether a token is this word.
fn is_word(token: &Token, word: &str) -> bool
    ensures { result ≡ is_word word.now token.now.kind }
{
    match &token.kind {
        TokenKind::Name(other) => other.as_str() == word,
        _ => false,
    }
}

impl<'a> Cursor<'a> {
    /// A cursor at the first of some tokens.
    pub fn new(tokens: &'a [Token]) -> Cursor<'a>
        ensures { result ≡ tokens.now }
    {
        Cursor { rest: tokens }
    }

    /// The tokens that are left.
    pub fn tokens(&self) -> &'a [Token]
        ensures { result.now ≡ self.now }
    {
        self.rest
    }

    /// How many turns a repetition has at most: one for each token that is left, and the last.
    pub fn turns(&self) -> usize
        ensures { result ≡ suc (length self.now) }
    {
        self.rest.len().saturating_add(1)
    }

    /// Whether the next token is this symbol.
    #[tactic(auto, unfolding(hl_grammar::specs::Read::is_at))]
    pub fn is_at(&self, symbol: Symbol) -> bool
        ensures { result ≡ is_at symbol self.now }
    {
        match self.rest.split_first() {
            Some((token, _)) => is_symbol(token, symbol),
            None => false,
        }
    }

    /// Whether the next token is this word.
    #[tactic(auto, unfolding(hl_grammar::specs::Read::is_at_word))]
    pub fn is_at_word(&self, word: &str) -> bool
        ensures { result ≡ is_at_word word.now self.now }
    {
        match self.rest.split_first() {
            Some((token, _)) => is_word(token, word),
            None => false,
        }
    }

    /// Takes the next token, which must be this symbol.
    ///
    /// # Errors
    ///
    /// `Syntax` where it isn't.
    #[tactic(auto, unfolding(hl_grammar::specs::Read::symbol))]
    pub fn expect(&mut self, symbol: Symbol) -> Result<(), Refused>
        ensures { Reads (read.symbol symbol self.old) result self.new }
    {
        let Some((token, rest)) = self.rest.split_first() else {
            return Err(Refused::Syntax);
        };
        if !is_symbol(token, symbol) {
            return Err(Refused::Syntax);
        }
        self.rest = rest;
        Ok(())
    }

    /// Takes the next token, which must be this word.
    ///
    /// # Errors
    ///
    /// `Syntax` where it isn't.
    #[tactic(auto, unfolding(hl_grammar::specs::Read::word))]
    pub fn expect_word(&mut self, word: &str) -> Result<(), Refused>
        ensures { Reads (read.word word.now self.old) result self.new }
    {
        let Some((token, rest)) = self.rest.split_first() else {
            return Err(Refused::Syntax);
        };
        if !is_word(token, word) {
            return Err(Refused::Syntax);
        }
        self.rest = rest;
        Ok(())
    }

    /// Takes the next token if it is this symbol, and says whether it was.
    #[tactic(auto, unfolding(hl_grammar::specs::Read::symbol, hl_grammar::specs::Read::is_at))]
    pub fn take_if(&mut self, symbol: Symbol) -> bool
        ensures { Takes (is_at symbol self.old) tt (read.symbol symbol self.old) result self.old self.new }
    {
        match self.rest.split_first() {
            Some((token, rest)) if is_symbol(token, symbol) => {
                self.rest = rest;
                true
            }
            _ => false,
        }
    }

    /// Whether no token is left.
    pub fn is_end(&self) -> bool
        ensures { result ≡ is_end self.now }
    {
        self.rest.is_empty()
    }

    /// Takes nothing, where no token is left.
    ///
    /// # Errors
    ///
    /// `Syntax` where one is.
    pub fn expect_end(&self) -> Result<(), Refused>
        ensures { Reads (end self.now) result self.now }
    {
        if self.rest.is_empty() {
            Ok(())
        } else {
            Err(Refused::Syntax)
        }
    }

    /// From the first token of a list to the last one before what is left of it, in bytes.
    pub fn since(&self, first: &[Token]) -> Span
        ensures { result ≡ span_between first.now self.now }
    {
        let (taken, _) = first.split_at(first.len().saturating_sub(self.rest.len()));
        span_of(taken)
    }

    /// Takes the next token, which must be a name.
    ///
    /// # Errors
    ///
    /// `Syntax` where it isn't, as at a keyword; `OutOfMemory`.
    #[tactic(auto, unfolding(hl_grammar::specs::Read::name))]
    pub fn name(&mut self) -> Result<Mark, Refused>
        ensures { Reads (read.name self.old) result self.new }
    {
        let Some((token, rest)) = self.rest.split_first() else {
            return Err(Refused::Syntax);
        };
        match &token.kind {
            TokenKind::Name(word) if !is_keyword(word.as_str()) => {
                let text = word.clone()?;
                self.rest = rest;
                Ok(Mark {
                    text,
                    span: token.span,
                })
            }
            _ => Err(Refused::Syntax),
        }
    }

    /// Takes the next token, which must be a name, and none of those that begin an operand.
    ///
    /// # Errors
    ///
    /// `Syntax` where it isn't; `OutOfMemory`.
    #[tactic(auto, unfolding(hl_grammar::specs::Read::name_but))]
    pub fn call_name(&mut self) -> Result<Mark, Refused>
        ensures { Reads (read.name_but applied_words self.old) result self.new }
    {
        let Some((token, rest)) = self.rest.split_first() else {
            return Err(Refused::Syntax);
        };
        match &token.kind {
            TokenKind::Name(word) if is_call_name(word.as_str()) => {
                let text = word.clone()?;
                self.rest = rest;
                Ok(Mark {
                    text,
                    span: token.span,
                })
            }
            _ => Err(Refused::Syntax),
        }
    }

    /// Takes the next token, which must be a name, and none of a value.
    ///
    /// # Errors
    ///
    /// `Syntax` where it isn't; `OutOfMemory`.
    #[tactic(auto, unfolding(hl_grammar::specs::Read::name_but))]
    pub fn variable(&mut self) -> Result<Mark, Refused>
        ensures { Reads (read.name_but constants self.old) result self.new }
    {
        let Some((token, rest)) = self.rest.split_first() else {
            return Err(Refused::Syntax);
        };
        match &token.kind {
            TokenKind::Name(word) if is_variable(word.as_str()) => {
                let text = word.clone()?;
                self.rest = rest;
                Ok(Mark {
                    text,
                    span: token.span,
                })
            }
            _ => Err(Refused::Syntax),
        }
    }

    /// Takes the next token, which must be a literal.
    ///
    /// # Errors
    ///
    /// `Syntax` where it isn't; `OutOfMemory`.
    #[tactic(auto, unfolding(hl_grammar::specs::Read::literal))]
    pub fn literal(&mut self) -> Result<Mark, Refused>
        ensures { Reads (read.literal self.old) result self.new }
    {
        let Some((token, rest)) = self.rest.split_first() else {
            return Err(Refused::Syntax);
        };
        match &token.kind {
            TokenKind::Literal(word) => {
                let text = word.clone()?;
                self.rest = rest;
                Ok(Mark {
                    text,
                    span: token.span,
                })
            }
            _ => Err(Refused::Syntax),
        }
    }

    /// Takes the next token, which must be a decimal literal.
    ///
    /// # Errors
    ///
    /// `Syntax` where it isn't; `OutOfMemory`.
    #[tactic(auto, unfolding(hl_grammar::specs::Read::decimal))]
    pub fn decimal(&mut self) -> Result<Mark, Refused>
        ensures { Reads (read.decimal self.old) result self.new }
    {
        let Some((token, rest)) = self.rest.split_first() else {
            return Err(Refused::Syntax);
        };
        match &token.kind {
            TokenKind::Literal(word) if is_decimal(word.as_str()) => {
                let text = word.clone()?;
                self.rest = rest;
                Ok(Mark {
                    text,
                    span: token.span,
                })
            }
            _ => Err(Refused::Syntax),
        }
    }
}

/// Whether a word is a keyword.
pub fn is_keyword(word: &str) -> bool
    ensures { result ≡ is_among keywords word.now }
{
    word == "fn" || word == "type" || word == "let" || word == "match"
}

/// Whether a word before `(` is a call's name.
fn is_call_name(word: &str) -> bool
    ensures { result
        ≡ if is_among keywords word.now then false else not (is_among applied_words word.now) }
{
    !(is_keyword(word) || word == "unwrap" || word == "Left" || word == "Right" || word == "Some")
}

/// Whether a word is a variable's name.
fn is_variable(word: &str) -> bool
    ensures { result ≡ if is_among keywords word.now then false else not (is_among constants word.now) }
{
    !(is_keyword(word) || word == "None" || word == "true" || word == "false")
}

/// Whether a literal has digits and `_` only.
fn is_decimal(word: &str) -> bool
    ensures { result ≡ are_digits is_ascii_digit word.now }
{
    word.as_bytes()
        .iter()
        .all(|byte| byte.is_ascii_digit() || *byte == b'_')
}

/// The symbol that comes next, if one does.
pub fn next_symbol(tokens: &[Token]) -> Option<Symbol>
    ensures { result ≡ read.next_symbol tokens.now }
{
    let (first, _) = tokens.split_first()?;
    match &first.kind {
        TokenKind::Symbol(symbol) => Some(*symbol),
        _ => None,
    }
}

/// From the first of some tokens to the last.
fn span_of(tokens: &[Token]) -> Span
    ensures { result ≡ span_of tokens.now }
{
    let Some((first, rest)) = tokens.split_first() else {
        return Span { start: 0, end: 0 };
    };
    let end = rest
        .iter()
        .fold(first.span.end, |_before, token| token.span.end);
    Span {
        start: first.span.start,
        end,
    }
}
