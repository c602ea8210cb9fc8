//! Expressions and value texts: which form stands ahead, and how deep it may go.

ghost use Rattle.std.specs.Prelude.{◌≡◌, true, false};
ghost use Rattle.simplicityhl.specs.Grammar.{expr_of};
ghost use Rattle.hl_grammar.specs.Readers.{brink};
ghost use Rattle.hl_grammar.specs.Read as read;
ghost use Rattle.hl_operands.specs.Exprs.{part_in, form_in, NestsIn};
ghost use Rattle.hl_cursor.specs.Gives.{Gives, Reads};

use crate::block::{block, match_form};
use hl_cursor::{Cursor, Refused};
use hl_operands::Inner;
use hl_starts::{begins, is_allowed, start};
use hl_syntax::{Expr, ExprForm, Symbol};
use simplicityhl::ExprAlternative;
use std::alloc::Global;

/// An expression without parentheses around it, by its alternative.
#[tactic(auto, unfolding(hl_grammar::specs::Read::expr_form))]
fn form<F: Fn(Global, &mut Cursor<'_>, u8) -> Result<Expr, Refused>>(
    inner: &Inner<F>,
    cursor: &mut Cursor<'_>,
    alternative: ExprAlternative,
) -> Result<ExprForm, Refused>
    requires { NestsIn inner.now (F.pre inner.now.expr) (F.post inner.now.expr) }
    ensures { Reads (form_in inner.now alternative cursor.old) result cursor.new }
{
    match alternative {
        ExprAlternative::Block => block(inner, cursor),
        ExprAlternative::Match => match_form(inner, cursor),
        ExprAlternative::Array => Ok(ExprForm::Array(inner.in_brackets(cursor)?)),
        ExprAlternative::List => inner.list_form(cursor),
        ExprAlternative::Assert => Ok(ExprForm::Assert(inner.exclaimed(cursor, "assert")?)),
        ExprAlternative::Dbg => Ok(ExprForm::Dbg(inner.exclaimed(cursor, "dbg")?)),
        ExprAlternative::Panic => inner.panic_form(cursor),
        ExprAlternative::Jet => inner.jet_form(cursor),
        ExprAlternative::Witness => Ok(ExprForm::Witness(inner.named(cursor, "witness")?)),
        ExprAlternative::Param => Ok(ExprForm::Param(inner.named(cursor, "param")?)),
        ExprAlternative::Into => inner.into_form(cursor),
        ExprAlternative::Unwrap => Ok(ExprForm::Unwrap(inner.applied(cursor, "unwrap")?)),
        ExprAlternative::UnwrapLeft => inner.unwrap_left_form(cursor),
        ExprAlternative::UnwrapRight => inner.unwrap_right_form(cursor),
        ExprAlternative::IsNone => inner.is_none_form(cursor),
        ExprAlternative::Fold => inner.fold_form(cursor),
        ExprAlternative::ArrayFold => inner.array_fold_form(cursor),
        ExprAlternative::ForWhile => inner.for_while_form(cursor),
        ExprAlternative::Left => Ok(ExprForm::Left(inner.applied(cursor, "Left")?)),
        ExprAlternative::Right => Ok(ExprForm::Right(inner.applied(cursor, "Right")?)),
        ExprAlternative::Some => Ok(ExprForm::Some(inner.applied(cursor, "Some")?)),
        ExprAlternative::Nothing => inner.nothing_form(cursor),
        ExprAlternative::True => inner.true_form(cursor),
        ExprAlternative::False => inner.false_form(cursor),
        ExprAlternative::Literal => Ok(ExprForm::Literal(cursor.literal()?.text)),
        ExprAlternative::Call => inner.call_form(cursor),
        ExprAlternative::Name => Ok(ExprForm::Name(cursor.variable()?.text)),
    }
}

/// An expression whose parts are nested less than so deep.
#[tactic(auto, unfolding(hl_grammar::specs::Read::expr_level))]
pub(crate) fn level<F: Fn(Global, &mut Cursor<'_>, u8) -> Result<Expr, Refused>>(
    inner: &Inner<F>,
    cursor: &mut Cursor<'_>,
) -> Result<Expr, Refused>
    requires { NestsIn inner.now (F.pre inner.now.expr) (F.post inner.now.expr) }
    ensures { Reads (part_in inner.now read.expr_level inner.now.values_only cursor.old) result cursor.new }
{
    if cursor.is_at(Symbol::OpenParenthesis) {
        return inner.parenthesised(cursor);
    }
    let first = cursor.tokens();
    let Some(alternative) = start(inner.values_only, first) else {
        return Err(Refused::Syntax);
    };
    if !is_allowed(inner.values_only, alternative) {
        return Err(Refused::Syntax);
    }
    let form = form(inner, cursor, alternative)?;
    let span = cursor.since(first);
    Ok(Expr { form, span })
}

/// Refuses what begins where nothing may be nested any more.
pub(crate) fn brink(values_only: bool, cursor: &Cursor<'_>) -> Result<Expr, Refused>
    ensures { Reads (brink (read.begins_expr values_only) cursor.now) result cursor.now }
{
    if begins(values_only, cursor.tokens()) {
        Err(Refused::TooDeep)
    } else {
        Err(Refused::Syntax)
    }
}

/// An expression that is nested less than so deep.
pub(crate) fn expr(alloc: Global, cursor: &mut Cursor<'_>, depth: u8) -> Result<Expr, Refused>
    ensures { Reads (read.expr depth cursor.old) result cursor.new }
{
    if depth == 0 {
        return brink(false, cursor);
    }
    let inner = Inner {
        alloc,
        depth: depth - 1,
        values_only: false,
        expr,
    };
    level(&inner, cursor)
}

/// A value text that is nested less than so deep: `depth` counts the expressions that stand in one
/// another.
///
/// # Errors
///
/// `TooDeep` where an expression begins that is nested deeper, `Syntax` where the tokens begin no
/// value text, with the cursor at the token that is refused; `OutOfMemory`.
pub fn value(alloc: Global, cursor: &mut Cursor<'_>, depth: u8) -> Result<Expr, Refused>
    ensures { Reads (read.value depth cursor.old) result cursor.new }
{
    if depth == 0 {
        return brink(true, cursor);
    }
    let inner = Inner {
        alloc,
        depth: depth - 1,
        values_only: true,
        expr: value,
    };
    level(&inner, cursor)
}

/// A function's body, a block, which counts as an expression and is nested less than so deep.
///
/// # Errors
///
/// `TooDeep` where an expression, type or pattern begins that is nested deeper, `Syntax` where the
/// tokens begin no block, with the cursor at the token that is refused; `OutOfMemory`.
#[tactic(auto, using(crate::proofs::Depth::body_too_deep, crate::proofs::Depth::body_dead, crate::proofs::Depth::body_deeper))]
pub fn body(alloc: Global, cursor: &mut Cursor<'_>, depth: u8) -> Result<Expr, Refused>
    ensures { Reads (read.body depth cursor.old) result cursor.new }
{
    if depth == 0 {
        if cursor.is_at(Symbol::OpenBrace) {
            return Err(Refused::TooDeep);
        }
        return Err(Refused::Syntax);
    }
    let first = cursor.tokens();
    let inner = Inner {
        alloc,
        depth: depth - 1,
        values_only: false,
        expr,
    };
    let form = block(&inner, cursor)?;
    let span = cursor.since(first);
    Ok(Expr { form, span })
}
