//! Blocks and matches.

ghost use Rattle.std.specs.Prelude.{◌≡◌, ◌∷◌, [], IfOk, OnOk};
ghost use Rattle.hl_data.specs.declared.typed.TypedForm.{TypedForm};
ghost use Rattle.hl_rules.specs.Exprs.{matched_type, side_walk, statement_walk};
ghost use Rattle.hl_types.specs.Walks.{AreSound};
ghost use Rattle.simplicityhl.specs.Kinds.{IsSound};
ghost use Rattle.hl_scope.specs.Checks.{Checks, ChecksAt, ChecksExpr, ChecksIn, ChecksScoped};
ghost use Rattle.hl_scope.specs.Contexts.{IsSoundSide};
ghost use Rattle.hl_check.specs.Scopes.{IsInner};
ghost use Rattle.hl_check.specs.Forms.{arm_in, block_form, expr_in, last_in, let_in, plain_in, statements_in, two_arms_form};
ghost use Rattle.hl_check.specs.Nests.{Nests};

use crate::checking::Checking;
use hl_data::{
    TypedArm, TypedArms, TypedExpr, TypedForm, TypedSide, TypedStatement, TypedStatements,
};
use hl_scope::{
    Asked, Body, CheckRefusal, Checker, are_sides, bind_pattern, copy_pattern, is_unit,
    matched_type, needs, side_at,
};
use hl_syntax::{
    Aliases, Arm, Expr, HlType, HlTypes, Pattern, Rule, Side, Statement, TypeText, Wanted,
};
use lists::Boxed;
use std::alloc::{AllocError, Global};

/// A `let` statement of a value of a type.
fn let_statement(
    alloc: Global,
    pattern: &Pattern,
    kind: HlType,
    value: Boxed<TypedExpr>,
) -> Result<TypedStatement, AllocError>
    ensures { IfOk result (λ statement. statement ≡ TypedStatement.Let pattern.now kind value) }
{
    let pattern = copy_pattern(alloc, pattern)?;
    Ok(TypedStatement::Let {
        pattern,
        kind,
        value: value.into_inner(),
    })
}

/// The side of an arm with its type, in a box, and the variables that it binds.
fn boxed_side(
    alloc: Global,
    aliases: &Aliases,
    side: &Side,
) -> Result<(Boxed<TypedSide>, Wanted), CheckRefusal>
    requires { AreSound aliases.now }
    ensures answers { Checks (side_walk aliases.now side.now) result }
    ensures sound { IfOk result (λ found. IsSoundSide found.0) }
{
    let (side, bound) = side_at(alloc, aliases, side)?;
    Ok((Boxed::new(alloc, side)?, bound))
}

/// An arm of a match, in a box.
fn boxed_arm(
    alloc: Global,
    side: Boxed<TypedSide>,
    body: Boxed<TypedExpr>,
) -> Result<Boxed<TypedArm>, AllocError>
    ensures { IfOk result (λ arm. arm ≡ record { side = side; body = body }) }
{
    let side = side.into_inner();
    let body = body.into_inner();
    Ok(Boxed::new(alloc, TypedArm { side, body })?)
}

/// A match of two arms.
fn match_form(
    alloc: Global,
    value: Boxed<TypedExpr>,
    one: Boxed<TypedArm>,
    two: Boxed<TypedArm>,
) -> Result<TypedForm, AllocError>
    ensures { IfOk result (λ form. form ≡ TypedForm.Match value (one ∷ two ∷ [])) }
{
    let mut arms = TypedArms::new(alloc);
    arms.push(one.into_inner())?;
    arms.push(two.into_inner())?;
    Ok(TypedForm::Match(value, arms))
}

impl<
    F: Fn(&Checker<'_>, u16, &Expr, &HlType, Rule, &mut Body) -> Result<TypedExpr, CheckRefusal>,
> Checking<'_, F> {
    /// A `let` statement, whose variables are in scope from here on.
    #[tactic(auto, using(crate::proofs::Exprs::inner_bound))]
    fn binding(
        &self,
        pattern: &Pattern,
        text: &TypeText,
        value: &Expr,
        body: &mut Body,
    ) -> Result<TypedStatement, CheckRefusal>
        requires nests { Nests self.now.depth (F.pre self.now.expr) (F.post self.now.expr) }
        ensures gives { ChecksScoped (let_in self.now pattern.now text.now value.now) result body.old body.new }
        ensures inner { OnOk result (IsInner body.old.scope body.new.scope) }
    {
        let alloc = self.checker.alloc();
        let kind = self.checker.written(text)?;
        let mut bound = Wanted::new(alloc);
        bind_pattern(alloc, pattern, &kind, &mut bound)?;
        let value = self.boxed(value, &kind, body)?;
        body.scope.bind(bound)?;
        Ok(let_statement(alloc, pattern, kind, value)?)
    }

    /// A statement that is no `let`.
    #[tactic(auto, using(crate::proofs::Exprs::inner_equal, hl_scope::proofs::Sounds::unit_sound))]
    fn plain(&self, e: &Expr, body: &mut Body) -> Result<TypedStatement, CheckRefusal>
        requires nests { Nests self.now.depth (F.pre self.now.expr) (F.post self.now.expr) }
        ensures gives { ChecksScoped (plain_in self.now e.now) result body.old body.new }
        ensures inner { OnOk result (IsInner body.old.scope body.new.scope) }
    {
        let unit = HlType::Tuple(HlTypes::new(self.checker.alloc()));
        let found = self.part(e, &unit, Rule::K23, body)?;
        Ok(TypedStatement::Plain(found))
    }

    /// A statement.
    fn statement(
        &self,
        statement: &Statement,
        body: &mut Body,
    ) -> Result<TypedStatement, CheckRefusal>
        requires nests { Nests self.now.depth (F.pre self.now.expr) (F.post self.now.expr) }
        ensures gives { ChecksScoped (statement_walk self.now.checker.now statement.now) result body.old body.new }
        ensures inner { OnOk result (IsInner body.old.scope body.new.scope) }
    {
        match statement {
            Statement::Let {
                pattern,
                kind,
                value,
                span: _,
            } => self.binding(pattern, kind, value, body),
            Statement::Plain(e) => self.plain(e, body),
        }
    }

    /// Statements, one after the other.
    #[tactic(auto, using(crate::proofs::Exprs::statement_next, crate::proofs::Exprs::no_statement, crate::proofs::Exprs::inner_more))]
    fn statements(
        &self,
        statements: &[Statement],
        body: &mut Body,
    ) -> Result<TypedStatements, CheckRefusal>
        requires nests { Nests self.now.depth (F.pre self.now.expr) (F.post self.now.expr) }
        ensures gives { ChecksScoped (statements_in self.now statements.now) result body.old body.new }
        ensures inner { OnOk result (IsInner body.old.scope body.new.scope) }
    {
        let mut found = TypedStatements::new(self.checker.alloc());
        'statements: for statement in statements {
            let one = self.statement(statement, body)?;
            found.push(one)?;
        }
        Ok(found)
    }

    /// The last expression of a block, or `()` without one.
    fn last(
        &self,
        last: &Option<Boxed<Expr>>,
        asked: Asked<'_>,
        body: &mut Body,
    ) -> Result<Option<Boxed<TypedExpr>>, CheckRefusal>
        requires nests { Nests self.now.depth (F.pre self.now.expr) (F.post self.now.expr) }
        requires sound { IsSound asked.expected.now }
        ensures gives { ChecksAt (last_in self.now last.now) asked.entry result body.old body.new }
        ensures scope { OnOk result (body.new.scope ≡ body.old.scope) }
    {
        match last {
            Some(e) => Ok(Some(self.boxed(e.get(), asked.expected, body)?)),
            None => {
                needs(is_unit(asked.expected), asked.rule, asked.span)?;
                Ok(None)
            }
        }
    }

    /// A block, at whose end its variables are out of scope.
    pub(crate) fn block(
        &self,
        statements: &[Statement],
        last: &Option<Boxed<Expr>>,
        asked: Asked<'_>,
        body: &mut Body,
    ) -> Result<TypedForm, CheckRefusal>
        requires nests { Nests self.now.depth (F.pre self.now.expr) (F.post self.now.expr) }
        requires sound { IsSound asked.expected.now }
        ensures gives { ChecksAt (block_form self.now statements.now last.now) asked.entry result body.old body.new }
        ensures scope { OnOk result (body.new.scope ≡ body.old.scope) }
    {
        let outer = body.scope.len();
        let found = self.statements(statements, body)?;
        let end = self.last(last, asked, body)?;
        body.scope.leave(outer);
        Ok(TypedForm::Block(found, end))
    }

    /// The body of an arm in a box, where the variables of its side are in scope.
    fn arm_body(
        &self,
        e: &Expr,
        bound: Wanted,
        expected: &HlType,
        body: &mut Body,
    ) -> Result<Boxed<TypedExpr>, CheckRefusal>
        requires nests { Nests self.now.depth (F.pre self.now.expr) (F.post self.now.expr) }
        requires sound { IsSound expected.now }
        ensures gives { ChecksIn (arm_in self.now e.now bound expected.now) result body.old body.new }
        ensures scope { OnOk result (body.new.scope ≡ body.old.scope) }
    {
        let outer = body.scope.len();
        body.scope.bind(bound)?;
        let found = self.boxed(e, expected, body)?;
        body.scope.leave(outer);
        Ok(found)
    }

    /// What a match with two sides takes apart, in a box.
    fn taken_apart(
        &self,
        e: &Expr,
        first: &TypedSide,
        second: &TypedSide,
        body: &mut Body,
    ) -> Result<Boxed<TypedExpr>, CheckRefusal>
        requires nests { Nests self.now.depth (F.pre self.now.expr) (F.post self.now.expr) }
        requires first { IsSoundSide first.now }
        requires second { IsSoundSide second.now }
        ensures gives { ChecksExpr (expr_in self.now e.now) (matched_type first.now second.now)
            Rule.K6 result body.old body.new }
        ensures scope { OnOk result (body.new.scope ≡ body.old.scope) }
    {
        let kind = matched_type(self.checker.alloc(), first, second)?;
        self.boxed(e, &kind, body)
    }

    /// A match of two arms.
    pub(crate) fn matched(
        &self,
        e: &Expr,
        one: &Arm,
        two: &Arm,
        asked: Asked<'_>,
        body: &mut Body,
    ) -> Result<TypedForm, CheckRefusal>
        requires nests { Nests self.now.depth (F.pre self.now.expr) (F.post self.now.expr) }
        requires sound { IsSound asked.expected.now }
        ensures gives { ChecksAt (two_arms_form self.now e.now one.now two.now) asked.entry result body.old body.new }
        ensures scope { OnOk result (body.new.scope ≡ body.old.scope) }
    {
        let alloc = self.checker.alloc();
        needs(are_sides(&one.side, &two.side), Rule::K13, asked.span)?;
        let (first, first_bound) = boxed_side(alloc, self.checker.aliases(), &one.side)?;
        let (second, second_bound) = boxed_side(alloc, self.checker.aliases(), &two.side)?;
        let value = self.taken_apart(e, first.get(), second.get(), body)?;
        let first_body = self.arm_body(&one.body, first_bound, asked.expected, body)?;
        let second_body = self.arm_body(&two.body, second_bound, asked.expected, body)?;
        let one = boxed_arm(alloc, first, first_body)?;
        let two = boxed_arm(alloc, second, second_body)?;
        Ok(match_form(alloc, value, one, two)?)
    }
}
