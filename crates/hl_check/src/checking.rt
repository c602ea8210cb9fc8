//! Parts of expressions. What holds expressions takes the function that checks those as a value, so
//! that each form is proved by itself.

ghost use Rattle.std.specs.Prelude.{◌≡◌, length, OnOk};
ghost use Rattle.simplicityhl.specs.Kinds.{IsSound};
ghost use Rattle.hl_scope.specs.Contexts.{AreSoundTypes};
ghost use Rattle.hl_scope.specs.Checks.{ChecksExpr, ChecksIn};
ghost use Rattle.hl_check.specs.Forms.{expr_in, items_in, parts_in};
ghost use Rattle.hl_check.specs.Nests.{Nests};

use hl_data::{TypedExpr, TypedExprs};
use hl_scope::{Body, CheckRefusal, Checker};
use hl_syntax::{Expr, HlType, Rule};
use lists::Boxed;

/// How the expressions in an expression are checked.
#[derive(Clone, Copy)]
pub(crate) struct Checking<'a, F> {
    pub(crate) checker: &'a Checker<'a>,
    pub(crate) depth: u16,
    pub(crate) expr: F,
}

impl<
    F: Fn(&Checker<'_>, u16, &Expr, &HlType, Rule, &mut Body) -> Result<TypedExpr, CheckRefusal>,
> Checking<'_, F> {
    /// A part at a type.
    pub(crate) fn part(
        &self,
        e: &Expr,
        expected: &HlType,
        rule: Rule,
        body: &mut Body,
    ) -> Result<TypedExpr, CheckRefusal>
        requires nests { Nests self.now.depth (F.pre self.now.expr) (F.post self.now.expr) }
        requires sound { IsSound expected.now }
        ensures gives { ChecksExpr (expr_in self.now e.now) expected.now rule result body.old body.new }
        ensures scope { OnOk result (body.new.scope ≡ body.old.scope) }
    {
        (self.expr)(self.checker, self.depth, e, expected, rule, body)
    }

    /// A part in a box. Where it isn't of the type K6 is named.
    pub(crate) fn boxed(
        &self,
        e: &Expr,
        expected: &HlType,
        body: &mut Body,
    ) -> Result<Boxed<TypedExpr>, CheckRefusal>
        requires nests { Nests self.now.depth (F.pre self.now.expr) (F.post self.now.expr) }
        requires sound { IsSound expected.now }
        ensures gives { ChecksExpr (expr_in self.now e.now) expected.now Rule.K6 result body.old body.new }
        ensures scope { OnOk result (body.new.scope ≡ body.old.scope) }
    {
        let found = self.part(e, expected, Rule::K6, body)?;
        Ok(Boxed::new(self.checker.alloc(), found)?)
    }

    /// Parts at their types, one after the other.
    #[tactic(auto, using(crate::proofs::Exprs::part_next, crate::proofs::Exprs::no_part, hl_scope::proofs::Sounds::sound_at))]
    pub(crate) fn parts(
        &self,
        parts: &[Expr],
        kinds: &[HlType],
        body: &mut Body,
    ) -> Result<TypedExprs, CheckRefusal>
        requires nests { Nests self.now.depth (F.pre self.now.expr) (F.post self.now.expr) }
        requires as_many { length parts.now ≡ length kinds.now }
        requires sound { AreSoundTypes kinds.now }
        ensures gives { ChecksIn (parts_in self.now parts.now kinds.now) result body.old body.new }
        ensures scope { OnOk result (body.new.scope ≡ body.old.scope) }
    {
        let mut found = TypedExprs::new(self.checker.alloc());
        'parts: for (place, part) in parts.iter().enumerate() {
            let one = self.part(part, &kinds[place], Rule::K6, body)?;
            found.push(one)?;
        }
        Ok(found)
    }

    /// Parts at one type, one after the other.
    #[tactic(auto, using(crate::proofs::Exprs::item_next, crate::proofs::Exprs::no_item))]
    pub(crate) fn items(
        &self,
        parts: &[Expr],
        item: &HlType,
        body: &mut Body,
    ) -> Result<TypedExprs, CheckRefusal>
        requires nests { Nests self.now.depth (F.pre self.now.expr) (F.post self.now.expr) }
        requires sound { IsSound item.now }
        ensures gives { ChecksIn (items_in self.now parts.now item.now) result body.old body.new }
        ensures scope { OnOk result (body.new.scope ≡ body.old.scope) }
    {
        let mut found = TypedExprs::new(self.checker.alloc());
        'items: for part in parts {
            let one = self.part(part, item, Rule::K6, body)?;
            found.push(one)?;
        }
        Ok(found)
    }
}
