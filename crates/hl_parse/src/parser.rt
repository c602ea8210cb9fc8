//! The tree of a text's tokens, and the type and the value that tokens are.

ghost use Rattle.std.specs.Prelude.{◌≡◌, ℕ, List, IfOk};
ghost use Rattle.hl_syntax.specs.declared.tree.Item.{Item};
ghost use Rattle.simplicityhl.specs.Grammar as grammar;
ghost use Rattle.simplicityhl.specs.Grammar.{Stands, most_depth};
ghost use Rattle.hl_grammar.specs.Readers.{whole};
ghost use Rattle.hl_grammar.specs.Read as read;
ghost use Rattle.hl_cursor.specs.Gives.{Reads};
ghost use Rattle.simplicityhl.specs.Viable.{place, IsSyntaxError, IsFirstDeep};
ghost use Rattle.hl_parse.specs.Answers.{AnswersTree, Finds, IsRefusalFor};
ghost use Rattle.hl_parse.specs.Refusals.{IsCause, Refuses};

use crate::item::program;
use hl_bindings::type_text;
use hl_cursor::{Cursor, Refused};
use hl_exprs::value;
use hl_syntax::{Expr, Program, Span, Token, TypeText};
use lists::Boxed as Box;
use std::alloc::Global;

/// How deep expressions, types and patterns may be nested.
const MOST_DEPTH: u8 = 128;

/// Why tokens give no tree.
#[derive(Clone, Copy, PartialEq, Eq, Debug)]
pub enum ParseRefusal {
    /// The tokens are none of the grammar.
    Syntax { at: Span },
    /// An expression, type or pattern is nested too deep.
    TooDeep { at: Span },
    OutOfMemory,
}

/// The bytes of the first of some tokens, or none at the text's end.
fn place(tokens: &[Token], end: u64) -> Span
    ensures { result ≡ place tokens.now end }
{
    match tokens.split_first() {
        Some((first, _)) => first.span,
        None => Span { start: end, end },
    }
}

/// A refusal at the token at which the cursor stands.
fn refusal(cursor: &Cursor<'_>, refused: Refused, end: u64) -> ParseRefusal
    ensures { IsRefusalFor refused cursor.now end result }
{
    let at = place(cursor.tokens(), end);
    match refused {
        Refused::Syntax => ParseRefusal::Syntax { at },
        Refused::TooDeep => ParseRefusal::TooDeep { at },
        Refused::OutOfMemory => ParseRefusal::OutOfMemory,
    }
}

/// A type, and no token after it.
fn whole_type(alloc: Global, cursor: &mut Cursor<'_>) -> Result<TypeText, Refused>
    ensures { Reads (whole (read.type most_depth) cursor.old) result cursor.new }
{
    let tree = type_text(alloc, cursor, MOST_DEPTH)?;
    cursor.expect_end()?;
    Ok(tree)
}

/// What reading a type answers.
fn read_type(alloc: Global, tokens: &[Token], end: u64) -> Result<TypeText, ParseRefusal>
    ensures { AnswersTree (whole (read.type most_depth) tokens.now) end result }
{
    let mut cursor = Cursor::new(tokens);
    match whole_type(alloc, &mut cursor) {
        Ok(tree) => Ok(tree),
        Err(refused) => Err(refusal(&cursor, refused, end)),
    }
}

/// The type that the tokens of a text are. `end` is the text's length.
///
/// # Errors
///
/// `TooDeep` where a type begins that is nested more than 128 deep, at the first such token.
/// `Syntax` where there is none and the tokens are no type, at the first token up to and with which
/// they begin none, or at the text's end. `OutOfMemory`.
pub fn parse_type(alloc: Global, tokens: &[Token], end: u64) -> Result<TypeText, ParseRefusal>
    ensures read { AnswersTree (whole (read.type most_depth) tokens.now) end result }
    ensures is_type { IfOk result (λ tree. Stands grammar.type most_depth tokens.now tree) }
    ensures types { (tree : TypeText) →
        Stands grammar.type most_depth tokens.now tree → Finds tree result }
    ensures cause { IsCause grammar.type tokens.now end result }
    ensures syntax { (at : Span) →
        IsSyntaxError grammar.type tokens.now end at → Refuses (ParseRefusal.Syntax at) result }
    ensures too_deep { (at : Span) →
        IsFirstDeep grammar.type tokens.now at → Refuses (ParseRefusal.TooDeep at) result }
{
    read_type(alloc, tokens, end)
}

/// A value text, and no token after it.
fn whole_value(alloc: Global, cursor: &mut Cursor<'_>) -> Result<Expr, Refused>
    ensures { Reads (whole (read.value most_depth) cursor.old) result cursor.new }
{
    let tree = Box::new(alloc, value(alloc, cursor, MOST_DEPTH)?)?;
    cursor.expect_end()?;
    Ok(tree.into_inner())
}

/// What reading a value text answers.
fn read_value(alloc: Global, tokens: &[Token], end: u64) -> Result<Expr, ParseRefusal>
    ensures { AnswersTree (whole (read.value most_depth) tokens.now) end result }
{
    let mut cursor = Cursor::new(tokens);
    match whole_value(alloc, &mut cursor) {
        Ok(tree) => Ok(tree),
        Err(refused) => Err(refusal(&cursor, refused, end)),
    }
}

/// The value text that the tokens of a text are: an expression of literals, truth values, tuples,
/// arrays, `list!`, `Left`, `Right`, `Some` and `None` alone. `end` is the text's length.
///
/// # Errors
///
/// `TooDeep` where an expression begins that is nested more than 128 deep, at the first such token.
/// `Syntax` where there is none and the tokens are no value text, at the first token up to and with
/// which they begin none, or at the text's end. `OutOfMemory`.
pub fn parse_value(alloc: Global, tokens: &[Token], end: u64) -> Result<Expr, ParseRefusal>
    ensures read { AnswersTree (whole (read.value most_depth) tokens.now) end result }
    ensures is_value { IfOk result (λ tree. Stands grammar.value most_depth tokens.now tree) }
    ensures values { (tree : Expr) →
        Stands grammar.value most_depth tokens.now tree → Finds tree result }
    ensures cause { IsCause grammar.value tokens.now end result }
    ensures syntax { (at : Span) →
        IsSyntaxError grammar.value tokens.now end at → Refuses (ParseRefusal.Syntax at) result }
    ensures too_deep { (at : Span) →
        IsFirstDeep grammar.value tokens.now at → Refuses (ParseRefusal.TooDeep at) result }
{
    read_value(alloc, tokens, end)
}

/// A program, and no token after it.
fn whole_program(alloc: Global, cursor: &mut Cursor<'_>) -> Result<Program, Refused>
    ensures { Reads (whole (read.program most_depth) cursor.old) result cursor.new }
{
    let tree = program(alloc, cursor, MOST_DEPTH)?;
    cursor.expect_end()?;
    Ok(tree)
}

/// What reading a program answers.
fn read_program(alloc: Global, tokens: &[Token], end: u64) -> Result<Program, ParseRefusal>
    ensures { AnswersTree (whole (read.program most_depth) tokens.now) end result }
{
    let mut cursor = Cursor::new(tokens);
    match whole_program(alloc, &mut cursor) {
        Ok(tree) => Ok(tree),
        Err(refused) => Err(refusal(&cursor, refused, end)),
    }
}

/// The program that the tokens of a text are. `end` is the text's length.
///
/// # Errors
///
/// `TooDeep` where an expression, type or pattern begins that is nested more than 128 deep, at the
/// first such token. `Syntax` where there is none and the tokens are no program, at the first token
/// up to and with which they begin none, or at the text's end. `OutOfMemory`.
pub fn parse(alloc: Global, tokens: &[Token], end: u64) -> Result<Program, ParseRefusal>
    ensures read { AnswersTree (whole (read.program most_depth) tokens.now) end result }
    ensures is_program { IfOk result (λ tree. Stands grammar.program most_depth tokens.now tree) }
    ensures programs { (tree : List Item) →
        Stands grammar.program most_depth tokens.now tree → Finds tree result }
    ensures cause { IsCause grammar.program tokens.now end result }
    ensures syntax { (at : Span) →
        IsSyntaxError grammar.program tokens.now end at → Refuses (ParseRefusal.Syntax at) result }
    ensures too_deep { (at : Span) →
        IsFirstDeep grammar.program tokens.now at → Refuses (ParseRefusal.TooDeep at) result }
{
    read_program(alloc, tokens, end)
}
