//! Expressions at their types, by recursive descent over the tree.

ghost use Rattle.std.specs.Prelude.{◌≡◌, OnOk};
ghost use Rattle.hl_rules.specs.Exprs.{expr_walk, form_walk};
ghost use Rattle.simplicityhl.specs.Kinds.{IsSound};
ghost use Rattle.hl_scope.specs.Checks.{ChecksAt, ChecksExpr};
ghost use Rattle.hl_scope.specs.Leaves.{false_form, nothing_form, true_form};
ghost use Rattle.hl_check.specs.Forms.{expr_in, match_form};
ghost use Rattle.hl_check.specs.Nests.{Nests};

use crate::checking::Checking;
use crate::literal::literal;
use hl_data::{TypedExpr, TypedForm};
use hl_scope::{Asked, Body, CheckRefusal, Checker, is_bool, needs, option_item};
use hl_syntax::{Arm, Expr, ExprForm, HlType, Rule};
use hl_types::copy_type;

impl<
    F: Fn(&Checker<'_>, u16, &Expr, &HlType, Rule, &mut Body) -> Result<TypedExpr, CheckRefusal>,
> Checking<'_, F> {
    /// A match, which has two arms.
    fn matching(
        &self,
        e: &Expr,
        arms: &[Arm],
        asked: Asked<'_>,
        body: &mut Body,
    ) -> Result<TypedForm, CheckRefusal>
        requires nests { Nests self.now.depth (F.pre self.now.expr) (F.post self.now.expr) }
        requires sound { IsSound asked.expected.now }
        ensures gives { ChecksAt (match_form self.now e.now arms.now) asked.entry result body.old body.new }
        ensures scope { OnOk result (body.new.scope ≡ body.old.scope) }
    {
        match arms {
            [one, two] => self.matched(e, one, two, asked, body),
            _ => Err(CheckRefusal::Rule {
                rule: Rule::K13,
                span: asked.span,
            }),
        }
    }

    /// `None`
    fn nothing(&self, asked: Asked<'_>, body: &mut Body) -> Result<TypedForm, CheckRefusal>
        ensures gives { ChecksAt (nothing_form self.now.checker.now) asked.entry result body.old body.new }
        ensures scope { OnOk result (body.new.scope ≡ body.old.scope) }
    {
        let _item = option_item(asked.expected, asked.rule, asked.span)?;
        Ok(TypedForm::Nothing)
    }

    /// `true`
    fn truth(&self, asked: Asked<'_>, body: &mut Body) -> Result<TypedForm, CheckRefusal>
        ensures gives { ChecksAt (true_form self.now.checker.now) asked.entry result body.old body.new }
        ensures scope { OnOk result (body.new.scope ≡ body.old.scope) }
    {
        needs(is_bool(asked.expected), asked.rule, asked.span)?;
        Ok(TypedForm::True)
    }

    /// `false`
    fn falsehood(&self, asked: Asked<'_>, body: &mut Body) -> Result<TypedForm, CheckRefusal>
        ensures gives { ChecksAt (false_form self.now.checker.now) asked.entry result body.old body.new }
        ensures scope { OnOk result (body.new.scope ≡ body.old.scope) }
    {
        needs(is_bool(asked.expected), asked.rule, asked.span)?;
        Ok(TypedForm::False)
    }

    /// The form of an expression.
    fn form(
        &self,
        form: &ExprForm,
        asked: Asked<'_>,
        body: &mut Body,
    ) -> Result<TypedForm, CheckRefusal>
        requires nests { Nests self.now.depth (F.pre self.now.expr) (F.post self.now.expr) }
        requires sound { IsSound asked.expected.now }
        ensures gives { ChecksAt (form_walk self.now.checker.now form.now) asked.entry result body.old body.new }
        ensures scope { OnOk result (body.new.scope ≡ body.old.scope) }
    {
        match form {
            ExprForm::Block(statements, last) => {
                self.block(statements.as_slice(), last, asked, body)
            }
            ExprForm::Match(e, arms) => self.matching(e.get(), arms.as_slice(), asked, body),
            ExprForm::Tuple(parts) => self.tuple(parts.as_slice(), asked, body),
            ExprForm::Array(parts) => self.array(parts.as_slice(), asked, body),
            ExprForm::List(parts) => self.list(parts.as_slice(), asked, body),
            ExprForm::Assert(e) => self.assertion(e.get(), asked, body),
            ExprForm::Dbg(e) => self.debug(e.get(), asked, body),
            ExprForm::Panic => Ok(TypedForm::Panic),
            ExprForm::Jet(name, parts) => self.jet(name, parts.as_slice(), asked, body),
            ExprForm::Witness(name) => self.checker.witness(name, asked, body),
            ExprForm::Param(name) => self.checker.param(name, asked, body),
            ExprForm::Into(text, e) => self.into(text, e.get(), asked, body),
            ExprForm::Unwrap(e) => self.unwrap(e.get(), asked, body),
            ExprForm::UnwrapLeft(text, e) => self.unwrap_left(text, e.get(), asked, body),
            ExprForm::UnwrapRight(text, e) => self.unwrap_right(text, e.get(), asked, body),
            ExprForm::IsNone(text, e) => self.is_none(text, e.get(), asked, body),
            ExprForm::Fold(name, count, list, total) => {
                self.fold(name, count, list.get(), total.get(), asked, body)
            }
            ExprForm::ArrayFold(name, count, array, total) => {
                self.array_fold(name, count, array.get(), total.get(), asked, body)
            }
            ExprForm::ForWhile(name, total, context) => {
                self.for_while(name, total.get(), context.get(), asked, body)
            }
            ExprForm::Left(e) => self.left(e.get(), asked, body),
            ExprForm::Right(e) => self.right(e.get(), asked, body),
            ExprForm::Some(e) => self.some(e.get(), asked, body),
            ExprForm::Nothing => self.nothing(asked, body),
            ExprForm::True => self.truth(asked, body),
            ExprForm::False => self.falsehood(asked, body),
            ExprForm::Literal(word) => literal(self.checker, word, asked, body),
            ExprForm::Call(name, parts) => self.call(name, parts.as_slice(), asked, body),
            ExprForm::Name(name) => self.checker.name(name, asked, body),
        }
    }

    /// An expression at a type.
    fn level(
        &self,
        e: &Expr,
        expected: &HlType,
        rule: Rule,
        body: &mut Body,
    ) -> Result<TypedExpr, CheckRefusal>
        requires nests { Nests self.now.depth (F.pre self.now.expr) (F.post self.now.expr) }
        requires sound { IsSound expected.now }
        ensures gives { ChecksExpr (expr_in self.now e.now) expected.now rule result body.old body.new }
        ensures scope { OnOk result (body.new.scope ≡ body.old.scope) }
    {
        let asked = Asked {
            span: e.span,
            expected,
            rule,
        };
        let kind = copy_type(self.checker.alloc(), expected)?;
        let form = self.form(&e.form, asked, body)?;
        Ok(TypedExpr { kind, form })
    }
}

/// How deep expressions are walked: twice as deep as the grammar nests them. Where a tree is nested
/// deeper no stack is promised for it.
pub(crate) const MOST_DEPTH: u16 = 256;

/// An expression at a type, given the rule by which it is named where it isn't of the type itself.
pub(crate) fn expr(
    checker: &Checker<'_>,
    depth: u16,
    e: &Expr,
    expected: &HlType,
    rule: Rule,
    body: &mut Body,
) -> Result<TypedExpr, CheckRefusal>
    requires { IsSound expected.now }
    ensures gives { ChecksExpr (expr_walk checker.now e.now) expected.now rule result body.old body.new }
    ensures scope { OnOk result (body.new.scope ≡ body.old.scope) }
{
    if depth == 0 {
        return Err(CheckRefusal::OutOfMemory);
    }
    Checking {
        checker: &*checker,
        depth: depth - 1,
        expr,
    }
    .level(e, expected, rule, body)
}
