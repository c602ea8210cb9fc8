//! Types. What holds types takes the reader of those as a parameter, so that each rule is proved
//! by itself.

ghost use Rattle.std.specs.Prelude.{◌≡◌};
ghost use Rattle.hl_grammar.specs.Read.{type_start};
ghost use Rattle.hl_grammar.specs.Read as read;
ghost use Rattle.simplicityhl.specs.Grammar.{type_of};
ghost use Rattle.hl_cursor.specs.Gives.{Gives, Reads, listed_of};
ghost use Rattle.hl_cursor.specs.Nests.{NestsType};

use hl_cursor::{Cursor, Listed, Refused, is_keyword, next_symbol};
use hl_syntax::{Symbol, Token, TokenKind, TypeForm, TypeText, TypeTexts};
use lists::Boxed as Box;
use simplicityhl::TypeAlternative;
use std::alloc::Global;

/// How the types in a type are read.
#[derive(Clone, Copy)]
pub(crate) struct Inner<F> {
    alloc: Global,
    depth: u8,
    type_text: F,
}

/// Which alternative a word before `<` begins.
#[tactic(auto, unfolding(hl_grammar::specs::Read::generic_type))]
fn generic(word: &str) -> TypeAlternative
    ensures { result ≡ read.generic_type word.now }
{
    if word == "List" {
        TypeAlternative::List
    } else if word == "Option" {
        TypeAlternative::Option
    } else if word == "Either" {
        TypeAlternative::Either
    } else {
        TypeAlternative::Name
    }
}

/// Which alternative a word begins.
fn named(word: &str, next: Option<Symbol>) -> TypeAlternative
    ensures { result ≡ read.named_type word.now next }
{
    match next {
        Some(Symbol::Less) => generic(word),
        _ => TypeAlternative::Name,
    }
}

/// Which alternative the tokens ahead begin.
#[tactic(auto, unfolding(hl_grammar::specs::Read::type_start))]
fn start(tokens: &[Token]) -> Option<TypeAlternative>
    ensures { result ≡ type_start tokens.now }
{
    let (first, rest) = tokens.split_first()?;
    match &first.kind {
        TokenKind::Name(word) if !is_keyword(word.as_str()) => {
            Some(named(word.as_str(), next_symbol(rest)))
        }
        TokenKind::Symbol(Symbol::OpenBracket) => Some(TypeAlternative::Array),
        _ => None,
    }
}

impl<F: Fn(Global, &mut Cursor<'_>, u8) -> Result<TypeText, Refused>> Inner<F> {
    fn type_text(&self, cursor: &mut Cursor<'_>) -> Result<TypeText, Refused>
        requires { NestsType self.now.depth (F.pre self.now.type_text) (F.post self.now.type_text) }
        ensures { Reads (read.type self.now.depth cursor.old) result cursor.new }
    {
        (self.type_text)(self.alloc, cursor, self.depth)
    }

    /// A type, put on the heap at once.
    fn boxed(&self, cursor: &mut Cursor<'_>) -> Result<Box<TypeText>, Refused>
        requires { NestsType self.now.depth (F.pre self.now.type_text) (F.post self.now.type_text) }
        ensures { Reads (read.type self.now.depth cursor.old) result cursor.new }
    {
        let kind = self.type_text(cursor)?;
        Ok(Box::new(self.alloc, kind)?)
    }

    /// `[type; count]`
    #[tactic(auto, unfolding(hl_grammar::specs::Read::type_form))]
    fn array(&self, cursor: &mut Cursor<'_>) -> Result<TypeForm, Refused>
        requires { NestsType self.now.depth (F.pre self.now.type_text) (F.post self.now.type_text) }
        ensures { Reads (read.type_form (read.type self.now.depth) TypeAlternative.Array cursor.old)
            result cursor.new }
    {
        cursor.expect(Symbol::OpenBracket)?;
        let item = self.boxed(cursor)?;
        cursor.expect(Symbol::Semicolon)?;
        let length = cursor.decimal()?;
        cursor.expect(Symbol::CloseBracket)?;
        Ok(TypeForm::Array(item, length))
    }

    /// `List<type, count>`
    #[tactic(auto, unfolding(hl_grammar::specs::Read::type_form))]
    fn bounded_list(&self, cursor: &mut Cursor<'_>) -> Result<TypeForm, Refused>
        requires { NestsType self.now.depth (F.pre self.now.type_text) (F.post self.now.type_text) }
        ensures { Reads (read.type_form (read.type self.now.depth) TypeAlternative.List cursor.old)
            result cursor.new }
    {
        cursor.expect_word("List")?;
        cursor.expect(Symbol::Less)?;
        let item = self.boxed(cursor)?;
        cursor.expect(Symbol::Comma)?;
        let bound = cursor.decimal()?;
        cursor.expect(Symbol::Greater)?;
        Ok(TypeForm::List(item, bound))
    }

    /// `Option<type>`
    #[tactic(auto, unfolding(hl_grammar::specs::Read::type_form))]
    fn option(&self, cursor: &mut Cursor<'_>) -> Result<TypeForm, Refused>
        requires { NestsType self.now.depth (F.pre self.now.type_text) (F.post self.now.type_text) }
        ensures { Reads (read.type_form (read.type self.now.depth) TypeAlternative.Option cursor.old)
            result cursor.new }
    {
        cursor.expect_word("Option")?;
        cursor.expect(Symbol::Less)?;
        let item = self.boxed(cursor)?;
        cursor.expect(Symbol::Greater)?;
        Ok(TypeForm::Option(item))
    }

    /// `Either<type, type>`
    #[tactic(auto, unfolding(hl_grammar::specs::Read::type_form))]
    fn either(&self, cursor: &mut Cursor<'_>) -> Result<TypeForm, Refused>
        requires { NestsType self.now.depth (F.pre self.now.type_text) (F.post self.now.type_text) }
        ensures { Reads (read.type_form (read.type self.now.depth) TypeAlternative.Either cursor.old)
            result cursor.new }
    {
        cursor.expect_word("Either")?;
        cursor.expect(Symbol::Less)?;
        let left = self.boxed(cursor)?;
        cursor.expect(Symbol::Comma)?;
        let right = self.boxed(cursor)?;
        cursor.expect(Symbol::Greater)?;
        Ok(TypeForm::Either(left, right))
    }

    #[tactic(auto, unfolding(hl_grammar::specs::Read::type_form))]
    fn form(
        &self,
        cursor: &mut Cursor<'_>,
        alternative: TypeAlternative,
    ) -> Result<TypeForm, Refused>
        requires { NestsType self.now.depth (F.pre self.now.type_text) (F.post self.now.type_text) }
        ensures { Reads (read.type_form (read.type self.now.depth) alternative cursor.old)
            result cursor.new }
    {
        match alternative {
            TypeAlternative::Array => self.array(cursor),
            TypeAlternative::List => self.bounded_list(cursor),
            TypeAlternative::Option => self.option(cursor),
            TypeAlternative::Either => self.either(cursor),
            TypeAlternative::Name => Ok(TypeForm::Name(cursor.name()?.text)),
        }
    }

    #[tactic(auto, using(hl_cursor::proofs::Turns::turn, hl_cursor::proofs::Turns::over))]
    fn list(&self, cursor: &mut Cursor<'_>, close: Symbol) -> Result<Listed<TypeText>, Refused>
        requires { NestsType self.now.depth (F.pre self.now.type_text) (F.post self.now.type_text) }
        ensures { Gives listed_of (read.many close (read.type self.now.depth) cursor.old)
            result cursor.new }
    {
        let mut items = TypeTexts::new(self.alloc);
        for _turn in 0..cursor.turns() {
            if cursor.take_if(close) {
                return Ok(Listed {
                    items,
                    is_open: true,
                });
            }
            items.push(self.type_text(cursor)?)?;
            if cursor.take_if(close) {
                return Ok(Listed {
                    items,
                    is_open: false,
                });
            }
            cursor.expect(Symbol::Comma)?;
        }
        Err(Refused::Syntax)
    }

    #[tactic(auto, unfolding(hl_grammar::specs::Read::parenthesised))]
    fn parenthesised(&self, cursor: &mut Cursor<'_>) -> Result<TypeText, Refused>
        requires { NestsType self.now.depth (F.pre self.now.type_text) (F.post self.now.type_text) }
        ensures { Reads
            (read.parenthesised (λ ts. type_of (TypeForm.Tuple ts)) (read.type self.now.depth) cursor.old)
            result cursor.new }
    {
        let first = cursor.tokens();
        cursor.expect(Symbol::OpenParenthesis)?;
        let listed = self.list(cursor, Symbol::CloseParenthesis)?;
        let span = cursor.since(first);
        match listed.alone() {
            Ok(only) => Ok(only),
            Err(items) => Ok(TypeText {
                form: TypeForm::Tuple(items),
                span,
            }),
        }
    }

    #[tactic(auto, unfolding(hl_grammar::specs::Read::type_level))]
    fn level(&self, cursor: &mut Cursor<'_>) -> Result<TypeText, Refused>
        requires { NestsType self.now.depth (F.pre self.now.type_text) (F.post self.now.type_text) }
        ensures { Reads (read.type_level (read.type self.now.depth) cursor.old) result cursor.new }
    {
        if cursor.is_at(Symbol::OpenParenthesis) {
            return self.parenthesised(cursor);
        }
        let first = cursor.tokens();
        let Some(alternative) = start(first) else {
            return Err(Refused::Syntax);
        };
        let form = self.form(cursor, alternative)?;
        let span = cursor.since(first);
        Ok(TypeText { form, span })
    }
}

/// Whether a type begins here.
#[tactic(auto, unfolding(hl_grammar::specs::Read::begins_type))]
pub(crate) fn begins(tokens: &[Token]) -> bool
    ensures { result ≡ read.begins_type tokens.now }
{
    let Some((first, _)) = tokens.split_first() else {
        return false;
    };
    match &first.kind {
        TokenKind::Name(word) => !is_keyword(word.as_str()),
        TokenKind::Symbol(Symbol::OpenParenthesis | Symbol::OpenBracket) => true,
        _ => false,
    }
}

/// A type that is nested less than so deep: `depth` counts the types that stand in one another.
///
/// # Errors
///
/// `TooDeep` where a type begins that is nested deeper, `Syntax` where the tokens begin no type,
/// with the cursor at the token that is refused; `OutOfMemory`.
pub fn type_text(alloc: Global, cursor: &mut Cursor<'_>, depth: u8) -> Result<TypeText, Refused>
    ensures { Reads (read.type depth cursor.old) result cursor.new }
{
    if depth == 0 {
        if begins(cursor.tokens()) {
            return Err(Refused::TooDeep);
        }
        return Err(Refused::Syntax);
    }
    Inner {
        alloc,
        depth: depth - 1,
        type_text,
    }
    .level(cursor)
}
