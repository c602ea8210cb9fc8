//! The tokens of a small function's text, read one by one.

ghost use Rattle.std.specs.Prelude.{◌≡◌, ℕ, ◌+◌, ◌≤◌, ◌↔◌, [], ◌∷◌, length, drop, IsTrue, MatchOption};
ghost use Rattle.std.specs.List.{prefix_len};
ghost use Rattle.small_source.specs.Names.{is_blank, is_word_byte};
ghost use Rattle.small_source.specs.Tokens.{tokens_from, further_bytes};
ghost use Rattle.small_source.specs.Read.{symbol_read};
ghost use Rattle.small_source.specs.View.{Takes, Gives, GivesRest};

use crate::names::{is_blank, is_word_byte};
use crate::small::SmallRefusal;
use std::marker::Model;

/// A token, and the offset of its first byte in the text.
#[derive(Clone, Copy)]
pub(crate) struct Token<'a> {
    pub(crate) bytes: &'a [u8],
    pub(crate) place: usize,
}

// The text that is left, and its offset. A clause sees the tokens that are left.
#[derive(Drop)]
pub(crate) struct Cursor<'a> {
    rest: &'a [u8],
    at: usize,
}

impl<'a> Model for Cursor<'a> {
    ghost use Rattle.std.specs.Prelude.{ℕ, List, ◌+◌, ◌<◌, ◌^◌, length};
    ghost use Rattle.small_source.specs.Tokens.{tokens_from};

    ghost Value = { List (List ℕ × ℕ) };

    ghost view = { λ c. tokens_from 0 c.at c.rest.now };

    ghost invariant = { λ c. c.at + length c.rest.now < 2 ^ 64 };
}

// How many bytes of a word the text begins with.
fn word_bytes(text: &[u8]) -> usize
    ensures value { result ≡ prefix_len is_word_byte text.now }
    ensures bound { result ≤ length text.now }
{
    text.iter().take_while(|byte| is_word_byte(**byte)).count()
}

// How many blanks the text begins with.
fn blanks(text: &[u8]) -> usize
    ensures value { result ≡ prefix_len is_blank text.now }
    ensures bound { result ≤ length text.now }
{
    text.iter().take_while(|byte| is_blank(**byte)).count()
}

// How many bytes after the first the token has that begins with `first`.
fn further_bytes(first: u8, more: &[u8]) -> usize
    ensures value { result ≡ further_bytes first more.now }
    ensures bound { result ≤ length more.now }
{
    if is_word_byte(first) {
        word_bytes(more)
    } else if first == b'-' && more.first() == Some(&b'>') {
        1
    } else {
        0
    }
}

impl<'a> Cursor<'a> {
    pub(crate) fn new(text: &'a [u8]) -> Cursor<'a>
        ensures { result ≡ tokens_from 0 0 text.now }
    {
        Cursor { rest: text, at: 0 }
    }

    fn copy(&self) -> Cursor<'a>
        ensures { result ≡ self.now }
    {
        Cursor {
            rest: self.rest,
            at: self.at,
        }
    }

    // The next token, which is taken.
    pub(crate) fn pop(&mut self) -> Option<Token<'a>>
        ensures { MatchOption result (self.old ≡ []) (λ token.
            self.old ≡ (token.bytes.now, token.place) ∷ self.new) }
    {
        let (_, text) = self.rest.split_at(blanks(self.rest));
        let place = self.at + (self.rest.len() - text.len());
        let Some((first, more)) = text.split_first() else {
            return None;
        };
        let length = 1 + further_bytes(*first, more);
        let (bytes, rest) = text.split_at(length);
        self.rest = rest;
        self.at = place + length;
        Some(Token { bytes, place })
    }

    #[tactic(auto, unfolding(crate::specs::Read::symbol_read))]
    // Takes the next token if it has these bytes.
    pub(crate) fn take_if(&mut self, bytes: &[u8]) -> bool
        ensures { Takes (symbol_read bytes.now self.old) result self.old self.new }
    {
        let mut after = self.copy();
        match after.pop() {
            Some(token) if token.bytes == bytes => {
                *self = after;
                true
            }
            _ => false,
        }
    }

    // Takes the next token, which must have these bytes.
    pub(crate) fn expect(&mut self, bytes: &[u8]) -> Result<(), SmallRefusal>
        ensures { GivesRest (symbol_read bytes.now self.old) result self.new }
    {
        if self.take_if(bytes) {
            Ok(())
        } else {
            Err(SmallRefusal::NotSmall)
        }
    }

    pub(crate) fn is_empty(&self) -> bool
        ensures { IsTrue result ↔ (self.now ≡ []) }
    {
        self.copy().pop().is_none()
    }
}
