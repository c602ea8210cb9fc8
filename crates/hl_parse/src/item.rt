//! What stands at the top of a source text.

ghost use Rattle.std.specs.Prelude.{◌≡◌, codes};
ghost use Rattle.hl_grammar.specs.Readers.{choose};
ghost use Rattle.hl_grammar.specs.Read.{is_at_word};
ghost use Rattle.hl_grammar.specs.Read as read;
ghost use Rattle.hl_cursor.specs.Gives.{Gives, Reads, listed_of};

use hl_bindings::type_text;
use hl_cursor::{Cursor, Listed, Refused};
use hl_exprs::body;
use hl_syntax::{Expr, Item, Param, Params, Program, Symbol, TypeText};
use std::alloc::Global;

/// `name: type`
#[tactic(auto, unfolding(hl_grammar::specs::Read::param))]
fn param(alloc: Global, cursor: &mut Cursor<'_>, depth: u8) -> Result<Param, Refused>
    ensures { Reads (read.param depth cursor.old) result cursor.new }
{
    let first = cursor.tokens();
    let name = cursor.name()?;
    cursor.expect(Symbol::Colon)?;
    let kind = type_text(alloc, cursor, depth)?;
    let span = cursor.since(first);
    Ok(Param { name, kind, span })
}

/// Parameters, and the parenthesis after them.
#[tactic(auto, using(hl_cursor::proofs::Turns::turn, hl_cursor::proofs::Turns::over))]
fn params(alloc: Global, cursor: &mut Cursor<'_>, depth: u8) -> Result<Listed<Param>, Refused>
    ensures { Gives listed_of (read.many Symbol.CloseParenthesis (read.param depth) cursor.old)
        result cursor.new }
{
    let mut items = Params::new(alloc);
    for _turn in 0..cursor.turns() {
        if cursor.take_if(Symbol::CloseParenthesis) {
            return Ok(Listed {
                items,
                is_open: true,
            });
        }
        items.push(param(alloc, cursor, depth)?)?;
        if cursor.take_if(Symbol::CloseParenthesis) {
            return Ok(Listed {
                items,
                is_open: false,
            });
        }
        cursor.expect(Symbol::Comma)?;
    }
    Err(Refused::Syntax)
}

/// `type name = type;`
#[tactic(auto, unfolding(hl_grammar::specs::Read::alias))]
fn alias(alloc: Global, cursor: &mut Cursor<'_>, depth: u8) -> Result<Item, Refused>
    ensures { Reads (read.alias depth cursor.old) result cursor.new }
{
    let first = cursor.tokens();
    cursor.expect_word("type")?;
    let name = cursor.name()?;
    cursor.expect(Symbol::Equals)?;
    let kind = type_text(alloc, cursor, depth)?;
    cursor.expect(Symbol::Semicolon)?;
    let span = cursor.since(first);
    Ok(Item::Alias { name, kind, span })
}

/// `-> type body`, or a body alone.
#[tactic(auto, unfolding(hl_grammar::specs::Read::result_and_body))]
fn result_and_body(
    alloc: Global,
    cursor: &mut Cursor<'_>,
    depth: u8,
) -> Result<(Option<TypeText>, Expr), Refused>
    ensures { Reads (read.result_and_body depth cursor.old) result cursor.new }
{
    if cursor.take_if(Symbol::Arrow) {
        let kind = type_text(alloc, cursor, depth)?;
        let body = body(alloc, cursor, depth)?;
        return Ok((Some(kind), body));
    }
    let body = body(alloc, cursor, depth)?;
    Ok((None, body))
}

/// `fn name(params) -> type body`
#[tactic(auto, unfolding(hl_grammar::specs::Read::function))]
fn function(alloc: Global, cursor: &mut Cursor<'_>, depth: u8) -> Result<Item, Refused>
    ensures { Reads (read.function depth cursor.old) result cursor.new }
{
    let first = cursor.tokens();
    cursor.expect_word("fn")?;
    let name = cursor.name()?;
    cursor.expect(Symbol::OpenParenthesis)?;
    let params = params(alloc, cursor, depth)?.items;
    let (kind, body) = result_and_body(alloc, cursor, depth)?;
    let span = cursor.since(first);
    Ok(Item::Function {
        name,
        params,
        result: kind,
        body,
        span,
    })
}

/// An alias or a function.
fn item(alloc: Global, cursor: &mut Cursor<'_>, depth: u8) -> Result<Item, Refused>
    ensures { Reads
        (choose (is_at_word (codes "type")) (read.alias depth) (read.function depth) cursor.old)
        result cursor.new }
{
    if cursor.is_at_word("type") {
        alias(alloc, cursor, depth)
    } else {
        function(alloc, cursor, depth)
    }
}

/// A program, up to the last token.
#[tactic(auto, using(hl_cursor::proofs::Turns::turn, hl_cursor::proofs::Turns::over), unfolding(hl_grammar::specs::Read::program))]
pub(crate) fn program(alloc: Global, cursor: &mut Cursor<'_>, depth: u8) -> Result<Program, Refused>
    ensures { Reads (read.program depth cursor.old) result cursor.new }
{
    let mut found = Program::new(alloc);
    for _turn in 0..cursor.turns() {
        if cursor.is_end() {
            return Ok(found);
        }
        found.push(item(alloc, cursor, depth)?)?;
    }
    Err(Refused::Syntax)
}
