//! Blocks, their statements, and the arms of a match.

ghost use Rattle.std.specs.Prelude.{◌≡◌, List};
ghost use Rattle.hl_syntax.specs.declared.token.Span.{Span};
ghost use Rattle.hl_syntax.specs.declared.tree.Statement.{Statement};
ghost use Rattle.hl_syntax.specs.declared.tree.Arm.{Arm};
ghost use Rattle.hl_syntax.specs.declared.tree.ExprForm.{ExprForm};
ghost use Rattle.simplicityhl.specs.Grammar.{opens_block};
ghost use Rattle.hl_grammar.specs.Readers.{Reader};
ghost use Rattle.hl_grammar.specs.Read as read;
ghost use Rattle.hl_operands.specs.Exprs.{part_in, form_in, NestsIn, arm_of, statements, more_arms};
ghost use Rattle.hl_cursor.specs.Gives.{Gives, Reads, Turned};

use hl_bindings::{pattern, side, type_text};
use hl_cursor::{Cursor, Refused, Turn};
use hl_operands::Inner;
use hl_syntax::{Arm, Arms, Expr, ExprForm, Side, Statement, Statements, Symbol};
use lists::Boxed as Box;
use simplicityhl::ExprAlternative;
use std::alloc::Global;

/// `let pattern: type = expr`
#[tactic(auto, unfolding(hl_grammar::specs::Read::let_statement))]
fn let_statement<F: Fn(Global, &mut Cursor<'_>, u8) -> Result<Expr, Refused>>(
    inner: &Inner<F>,
    cursor: &mut Cursor<'_>,
) -> Result<Statement, Refused>
    requires { NestsIn inner.now (F.pre inner.now.expr) (F.post inner.now.expr) }
    ensures { Reads (part_in inner.now read.let_statement cursor.old) result cursor.new }
{
    let first = cursor.tokens();
    cursor.expect_word("let")?;
    let pattern = pattern(inner.alloc, cursor, inner.depth)?;
    cursor.expect(Symbol::Colon)?;
    let kind = type_text(inner.alloc, cursor, inner.depth)?;
    cursor.expect(Symbol::Equals)?;
    let value = inner.expr(cursor)?;
    let span = cursor.since(first);
    Ok(Statement::Let {
        pattern,
        kind,
        value,
        span,
    })
}

/// A statement that goes to those that were found, or the end of a block.
fn block_turn<F: Fn(Global, &mut Cursor<'_>, u8) -> Result<Expr, Refused>>(
    inner: &Inner<F>,
    cursor: &mut Cursor<'_>,
    found: &mut Statements,
) -> Result<Turn<Option<Box<Expr>>>, Refused>
    requires { NestsIn inner.now (F.pre inner.now.expr) (F.post inner.now.expr) }
    ensures { (more : List Statement → Reader ExprForm) →
        Turned more (λ last. ExprForm.Block found.new last)
        (part_in inner.now read.block_turn more found.old cursor.old) found.new result cursor.new }
{
    if cursor.take_if(Symbol::CloseBrace) {
        return Ok(Turn::Last(None));
    }
    if cursor.is_at_word("let") {
        let statement = let_statement(inner, cursor)?;
        found.push(statement)?;
        cursor.expect(Symbol::Semicolon)?;
        return Ok(Turn::More);
    }
    let last = inner.boxed(cursor)?;
    if cursor.take_if(Symbol::Semicolon) {
        found.push(Statement::Plain(last.into_inner()))?;
        return Ok(Turn::More);
    }
    cursor.expect(Symbol::CloseBrace)?;
    Ok(Turn::Last(Some(last)))
}

/// `{ statement; .. expr }`
#[tactic(auto, unfolding(hl_grammar::specs::Read::block))]
pub(crate) fn block<F: Fn(Global, &mut Cursor<'_>, u8) -> Result<Expr, Refused>>(
    inner: &Inner<F>,
    cursor: &mut Cursor<'_>,
) -> Result<ExprForm, Refused>
    requires { NestsIn inner.now (F.pre inner.now.expr) (F.post inner.now.expr) }
    ensures { Reads (part_in inner.now read.block cursor.old) result cursor.new }
{
    cursor.expect(Symbol::OpenBrace)?;
    statements(inner, cursor)
}

/// What stands after the opening brace of a block.
fn statements<F: Fn(Global, &mut Cursor<'_>, u8) -> Result<Expr, Refused>>(
    inner: &Inner<F>,
    cursor: &mut Cursor<'_>,
) -> Result<ExprForm, Refused>
    requires { NestsIn inner.now (F.pre inner.now.expr) (F.post inner.now.expr) }
    ensures { Reads (part_in inner.now statements cursor.old) result cursor.new }
{
    let mut found = Statements::new(inner.alloc);
    for _turn in 0..cursor.turns() {
        match block_turn(inner, cursor, &mut found)? {
            Turn::More => {}
            Turn::Last(last) => return Ok(ExprForm::Block(found, last)),
        }
    }
    Err(Refused::Syntax)
}

/// An arm up to its comma, and whether its body is written as a block.
#[tactic(auto, unfolding(hl_grammar::specs::Read::arm))]
fn arm<F: Fn(Global, &mut Cursor<'_>, u8) -> Result<Expr, Refused>>(
    inner: &Inner<F>,
    cursor: &mut Cursor<'_>,
) -> Result<(Side, Expr, bool), Refused>
    requires { NestsIn inner.now (F.pre inner.now.expr) (F.post inner.now.expr) }
    ensures { Gives arm_of (part_in inner.now read.arm cursor.old) result cursor.new }
{
    let side = side(inner.alloc, cursor, inner.depth)?;
    cursor.expect(Symbol::FatArrow)?;
    let is_block = opens_block(cursor);
    let body = inner.expr(cursor)?;
    Ok((side, body, is_block))
}

/// An arm that goes to those that were found, or the end of the arms.
fn arms_turn<F: Fn(Global, &mut Cursor<'_>, u8) -> Result<Expr, Refused>>(
    inner: &Inner<F>,
    cursor: &mut Cursor<'_>,
    found: &mut Arms,
) -> Result<Turn<()>, Refused>
    requires { NestsIn inner.now (F.pre inner.now.expr) (F.post inner.now.expr) }
    ensures { (more : List Arm → Reader (List Arm)) →
        Turned more (λ _. found.new)
        (part_in inner.now read.arms_turn more found.old cursor.old) found.new result cursor.new }
{
    if cursor.take_if(Symbol::CloseBrace) {
        return Ok(Turn::Last(()));
    }
    let first = cursor.tokens();
    let (side, body, is_block) = arm(inner, cursor)?;
    let has_comma = cursor.take_if(Symbol::Comma);
    let span = cursor.since(first);
    found.push(Arm { side, body, span })?;
    if has_comma || is_block {
        return Ok(Turn::More);
    }
    cursor.expect(Symbol::CloseBrace)?;
    Ok(Turn::Last(()))
}

/// `{ arm .. }`
#[tactic(auto, unfolding(hl_grammar::specs::Read::arms))]
fn arms<F: Fn(Global, &mut Cursor<'_>, u8) -> Result<Expr, Refused>>(
    inner: &Inner<F>,
    cursor: &mut Cursor<'_>,
) -> Result<Arms, Refused>
    requires { NestsIn inner.now (F.pre inner.now.expr) (F.post inner.now.expr) }
    ensures { Reads (part_in inner.now read.arms cursor.old) result cursor.new }
{
    cursor.expect(Symbol::OpenBrace)?;
    more_arms(inner, cursor)
}

/// What stands after the opening brace of a match.
fn more_arms<F: Fn(Global, &mut Cursor<'_>, u8) -> Result<Expr, Refused>>(
    inner: &Inner<F>,
    cursor: &mut Cursor<'_>,
) -> Result<Arms, Refused>
    requires { NestsIn inner.now (F.pre inner.now.expr) (F.post inner.now.expr) }
    ensures { Reads (part_in inner.now more_arms cursor.old) result cursor.new }
{
    let mut found = Arms::new(inner.alloc);
    for _turn in 0..cursor.turns() {
        match arms_turn(inner, cursor, &mut found)? {
            Turn::More => {}
            Turn::Last(()) => return Ok(found),
        }
    }
    Err(Refused::Syntax)
}

/// `match expr { arm .. }`
#[tactic(auto, unfolding(hl_grammar::specs::Read::expr_form))]
pub(crate) fn match_form<F: Fn(Global, &mut Cursor<'_>, u8) -> Result<Expr, Refused>>(
    inner: &Inner<F>,
    cursor: &mut Cursor<'_>,
) -> Result<ExprForm, Refused>
    requires { NestsIn inner.now (F.pre inner.now.expr) (F.post inner.now.expr) }
    ensures { Reads (form_in inner.now ExprAlternative.Match cursor.old) result cursor.new }
{
    cursor.expect_word("match")?;
    let value = inner.boxed(cursor)?;
    let arms = arms(inner, cursor)?;
    Ok(ExprForm::Match(value, arms))
}

/// Whether an expression that begins here is written as a block.
#[tactic(auto, unfolding(hl_grammar::specs::Read::is_at))]
fn opens_block(cursor: &Cursor<'_>) -> bool
    ensures { result ≡ opens_block cursor.now }
{
    cursor.is_at(Symbol::OpenBrace)
}
