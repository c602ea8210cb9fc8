//! Patterns. What holds patterns takes the reader of those as a parameter, so that each rule is
//! proved by itself.

ghost use Rattle.std.specs.Prelude.{◌≡◌};
ghost use Rattle.hl_grammar.specs.Read.{pattern_start};
ghost use Rattle.hl_grammar.specs.Read as read;
ghost use Rattle.simplicityhl.specs.Grammar.{pattern_of};
ghost use Rattle.hl_cursor.specs.Gives.{Gives, Reads, listed_of};
ghost use Rattle.hl_cursor.specs.Nests.{NestsPattern};

use hl_cursor::{Cursor, Listed, Refused, is_keyword};
use hl_syntax::{Pattern, PatternForm, Patterns, Symbol, Token, TokenKind};
use simplicityhl::PatternAlternative;
use std::alloc::Global;

/// How the patterns in a pattern are read.
#[derive(Clone, Copy)]
pub(crate) struct Inner<F> {
    alloc: Global,
    depth: u8,
    pattern: F,
}

/// Which alternative the tokens ahead begin.
#[tactic(auto, unfolding(hl_grammar::specs::Read::pattern_start))]
fn start(tokens: &[Token]) -> Option<PatternAlternative>
    ensures { result ≡ pattern_start tokens.now }
{
    let (first, _) = tokens.split_first()?;
    match &first.kind {
        TokenKind::Name(word) if !is_keyword(word.as_str()) => Some(PatternAlternative::Name),
        TokenKind::Symbol(Symbol::Underscore) => Some(PatternAlternative::Ignore),
        TokenKind::Symbol(Symbol::OpenBracket) => Some(PatternAlternative::Array),
        _ => None,
    }
}

impl<F: Fn(Global, &mut Cursor<'_>, u8) -> Result<Pattern, Refused>> Inner<F> {
    fn pattern(&self, cursor: &mut Cursor<'_>) -> Result<Pattern, Refused>
        requires { NestsPattern self.now.depth (F.pre self.now.pattern) (F.post self.now.pattern) }
        ensures { Reads (read.pattern self.now.depth cursor.old) result cursor.new }
    {
        (self.pattern)(self.alloc, cursor, self.depth)
    }

    #[tactic(auto, unfolding(hl_grammar::specs::Read::pattern_form))]
    fn form(
        &self,
        cursor: &mut Cursor<'_>,
        alternative: PatternAlternative,
    ) -> Result<PatternForm, Refused>
        requires { NestsPattern self.now.depth (F.pre self.now.pattern) (F.post self.now.pattern) }
        ensures { Reads (read.pattern_form (read.pattern self.now.depth) alternative cursor.old)
            result cursor.new }
    {
        match alternative {
            PatternAlternative::Name => Ok(PatternForm::Name(cursor.name()?.text)),
            PatternAlternative::Ignore => {
                cursor.expect(Symbol::Underscore)?;
                Ok(PatternForm::Ignore)
            }
            PatternAlternative::Array => {
                cursor.expect(Symbol::OpenBracket)?;
                let listed = self.list(cursor, Symbol::CloseBracket)?;
                Ok(PatternForm::Array(listed.items))
            }
        }
    }

    #[tactic(auto, using(hl_cursor::proofs::Turns::turn, hl_cursor::proofs::Turns::over))]
    fn list(&self, cursor: &mut Cursor<'_>, close: Symbol) -> Result<Listed<Pattern>, Refused>
        requires { NestsPattern self.now.depth (F.pre self.now.pattern) (F.post self.now.pattern) }
        ensures { Gives listed_of (read.many close (read.pattern self.now.depth) cursor.old)
            result cursor.new }
    {
        let mut items = Patterns::new(self.alloc);
        for _turn in 0..cursor.turns() {
            if cursor.take_if(close) {
                return Ok(Listed {
                    items,
                    is_open: true,
                });
            }
            items.push(self.pattern(cursor)?)?;
            if cursor.take_if(close) {
                return Ok(Listed {
                    items,
                    is_open: false,
                });
            }
            cursor.expect(Symbol::Comma)?;
        }
        Err(Refused::Syntax)
    }

    #[tactic(auto, unfolding(hl_grammar::specs::Read::parenthesised))]
    fn parenthesised(&self, cursor: &mut Cursor<'_>) -> Result<Pattern, Refused>
        requires { NestsPattern self.now.depth (F.pre self.now.pattern) (F.post self.now.pattern) }
        ensures { Reads
            (read.parenthesised (λ ps. pattern_of (PatternForm.Tuple ps)) (read.pattern self.now.depth)
            cursor.old)
            result cursor.new }
    {
        let first = cursor.tokens();
        cursor.expect(Symbol::OpenParenthesis)?;
        let listed = self.list(cursor, Symbol::CloseParenthesis)?;
        let span = cursor.since(first);
        match listed.alone() {
            Ok(only) => Ok(only),
            Err(items) => Ok(Pattern {
                form: PatternForm::Tuple(items),
                span,
            }),
        }
    }

    #[tactic(auto, unfolding(hl_grammar::specs::Read::pattern_level))]
    fn level(&self, cursor: &mut Cursor<'_>) -> Result<Pattern, Refused>
        requires { NestsPattern self.now.depth (F.pre self.now.pattern) (F.post self.now.pattern) }
        ensures { Reads (read.pattern_level (read.pattern self.now.depth) cursor.old) result cursor.new }
    {
        if cursor.is_at(Symbol::OpenParenthesis) {
            return self.parenthesised(cursor);
        }
        let first = cursor.tokens();
        let Some(alternative) = start(first) else {
            return Err(Refused::Syntax);
        };
        let form = self.form(cursor, alternative)?;
        let span = cursor.since(first);
        Ok(Pattern { form, span })
    }
}

/// Whether a pattern begins here.
#[tactic(auto, unfolding(hl_grammar::specs::Read::begins_pattern))]
pub(crate) fn begins(tokens: &[Token]) -> bool
    ensures { result ≡ read.begins_pattern tokens.now }
{
    let Some((first, _)) = tokens.split_first() else {
        return false;
    };
    match &first.kind {
        TokenKind::Name(word) => !is_keyword(word.as_str()),
        TokenKind::Symbol(Symbol::OpenParenthesis | Symbol::OpenBracket | Symbol::Underscore) =>
            true,
        _ => false,
    }
}

/// A pattern that is nested less than so deep: `depth` counts the patterns that stand in one
/// another.
///
/// # Errors
///
/// `TooDeep` where a pattern begins that is nested deeper, `Syntax` where the tokens begin no
/// pattern, with the cursor at the token that is refused; `OutOfMemory`.
pub fn pattern(alloc: Global, cursor: &mut Cursor<'_>, depth: u8) -> Result<Pattern, Refused>
    ensures { Reads (read.pattern depth cursor.old) result cursor.new }
{
    if depth == 0 {
        if begins(cursor.tokens()) {
            return Err(Refused::TooDeep);
        }
        return Err(Refused::Syntax);
    }
    Inner {
        alloc,
        depth: depth - 1,
        pattern,
    }
    .level(cursor)
}
