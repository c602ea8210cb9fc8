//! Sides of arms: what an arm of a match takes apart, and the pattern and type that it binds.

ghost use Rattle.std.specs.Prelude.{◌≡◌};
ghost use Rattle.hl_syntax.specs.declared.tree.Pattern.{Pattern};
ghost use Rattle.hl_syntax.specs.declared.tree.TypeText.{TypeText};
ghost use Rattle.hl_syntax.specs.declared.tree.Side.{Side};
ghost use Rattle.hl_grammar.specs.Readers.{pick};
ghost use Rattle.hl_grammar.specs.Read as read;
ghost use Rattle.hl_cursor.specs.Gives.{Gives, Reads};

use crate::patterns::pattern;
use crate::type_texts::type_text;
use hl_cursor::{Cursor, Refused};
use hl_syntax::{Pattern, Side, Symbol, Token, TokenKind, TypeText};
use simplicityhl::SideAlternative;
use std::alloc::Global;

/// Which alternative a word begins.
#[tactic(auto, unfolding(hl_grammar::specs::Read::side_by))]
fn named(word: &str) -> Option<SideAlternative>
    ensures { result ≡ read.side_by word.now }
{
    if word == "Left" {
        Some(SideAlternative::Left)
    } else if word == "Right" {
        Some(SideAlternative::Right)
    } else if word == "Some" {
        Some(SideAlternative::Some)
    } else if word == "None" {
        Some(SideAlternative::Nothing)
    } else if word == "true" {
        Some(SideAlternative::True)
    } else if word == "false" {
        Some(SideAlternative::False)
    } else {
        None
    }
}

/// Which alternative the tokens ahead begin.
#[tactic(auto, unfolding(hl_grammar::specs::Read::side_start))]
fn start(tokens: &[Token]) -> Option<SideAlternative>
    ensures { result ≡ read.side_start tokens.now }
{
    let (first, _) = tokens.split_first()?;
    match &first.kind {
        TokenKind::Name(word) => named(word.as_str()),
        _ => None,
    }
}

/// What a side binds, in parentheses.
#[tactic(auto, unfolding(hl_grammar::specs::Read::binding))]
fn binding(
    alloc: Global,
    cursor: &mut Cursor<'_>,
    depth: u8,
) -> Result<(Pattern, TypeText), Refused>
    ensures { (side : Pattern → TypeText → Side) →
        Gives (λ b. side b.0 b.1)
        (read.binding side (read.pattern depth) (read.type depth) cursor.old) result cursor.new }
{
    cursor.expect(Symbol::OpenParenthesis)?;
    let bound = pattern(alloc, cursor, depth)?;
    cursor.expect(Symbol::Colon)?;
    let kind = type_text(alloc, cursor, depth)?;
    cursor.expect(Symbol::CloseParenthesis)?;
    Ok((bound, kind))
}

/// The rest of a side, by its alternative.
#[tactic(auto, unfolding(hl_grammar::specs::Read::side_form))]
fn form(
    alloc: Global,
    cursor: &mut Cursor<'_>,
    depth: u8,
    alternative: SideAlternative,
) -> Result<Side, Refused>
    ensures { Reads (read.side_form (read.pattern depth) (read.type depth) alternative cursor.old)
        result cursor.new }
{
    match alternative {
        SideAlternative::Left => {
            cursor.expect_word("Left")?;
            let (bound, kind) = binding(alloc, cursor, depth)?;
            Ok(Side::Left(bound, kind))
        }
        SideAlternative::Right => {
            cursor.expect_word("Right")?;
            let (bound, kind) = binding(alloc, cursor, depth)?;
            Ok(Side::Right(bound, kind))
        }
        SideAlternative::Some => {
            cursor.expect_word("Some")?;
            let (bound, kind) = binding(alloc, cursor, depth)?;
            Ok(Side::Some(bound, kind))
        }
        SideAlternative::Nothing => {
            cursor.expect_word("None")?;
            Ok(Side::Nothing)
        }
        SideAlternative::True => {
            cursor.expect_word("true")?;
            Ok(Side::True)
        }
        SideAlternative::False => {
            cursor.expect_word("false")?;
            Ok(Side::False)
        }
    }
}

/// The side of an arm, whose pattern and type are nested less than so deep.
///
/// # Errors
///
/// `Syntax` where the tokens begin no side, `TooDeep` where its pattern or its type goes deeper,
/// with the cursor at the token that is refused; `OutOfMemory`.
pub fn side(alloc: Global, cursor: &mut Cursor<'_>, depth: u8) -> Result<Side, Refused>
    ensures { Reads
        (pick read.side_start (read.side_form (read.pattern depth) (read.type depth)) cursor.old)
        result cursor.new }
{
    let Some(alternative) = start(cursor.tokens()) else {
        return Err(Refused::Syntax);
    };
    form(alloc, cursor, depth, alternative)
}
