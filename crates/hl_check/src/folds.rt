//! Loops.

ghost use Rattle.std.specs.Prelude.{◌≡◌, OnOk, IsTrue};
ghost use Rattle.simplicityhl.specs.Kinds.{is_bound, is_count, IsSound};
ghost use Rattle.hl_scope.specs.Checks.{ChecksExpr};
ghost use Rattle.hl_check.specs.Forms.{Folds, FoldsAll, TurnsWhile, expr_in};
ghost use Rattle.hl_check.specs.Nests.{Nests};

use crate::checking::Checking;
use hl_data::{TypedExpr, TypedForm};
use hl_scope::{
    Asked, Body, CheckRefusal, Checker, array_type, counted, fold_shape, list_type, needs,
    while_shape,
};
use hl_syntax::{Expr, HlType, Mark, Rule};
use hl_types::{is_list_bound, same_type};
use lists::Boxed;

impl<
    F: Fn(&Checker<'_>, u16, &Expr, &HlType, Rule, &mut Body) -> Result<TypedExpr, CheckRefusal>,
> Checking<'_, F> {
    /// A list of items of a type, of a bound.
    fn list_of(
        &self,
        list: &Expr,
        item: &HlType,
        bound: u32,
        body: &mut Body,
    ) -> Result<Boxed<TypedExpr>, CheckRefusal>
        requires nests { Nests self.now.depth (F.pre self.now.expr) (F.post self.now.expr) }
        requires item { IsSound item.now }
        requires bound { IsTrue (is_bound bound) }
        ensures gives { ChecksExpr (expr_in self.now list.now) (HlType.List item.now bound)
            Rule.K6 result body.old body.new }
        ensures scope { OnOk result (body.new.scope ≡ body.old.scope) }
    {
        let kind = list_type(self.checker.alloc(), item, bound)?;
        self.boxed(list, &kind, body)
    }

    /// An array of so many items of a type.
    fn array_of(
        &self,
        array: &Expr,
        item: &HlType,
        count: u32,
        body: &mut Body,
    ) -> Result<Boxed<TypedExpr>, CheckRefusal>
        requires nests { Nests self.now.depth (F.pre self.now.expr) (F.post self.now.expr) }
        requires item { IsSound item.now }
        requires count { IsTrue (is_count count) }
        ensures gives { ChecksExpr (expr_in self.now array.now) (HlType.Array item.now count)
            Rule.K6 result body.old body.new }
        ensures scope { OnOk result (body.new.scope ≡ body.old.scope) }
    {
        let kind = array_type(self.checker.alloc(), item, count)?;
        self.boxed(array, &kind, body)
    }

    /// `fold::<name, count>(list, total)`
    pub(crate) fn fold(
        &self,
        name: &Mark,
        count: &Mark,
        list: &Expr,
        total: &Expr,
        asked: Asked<'_>,
        body: &mut Body,
    ) -> Result<TypedForm, CheckRefusal>
        requires nests { Nests self.now.depth (F.pre self.now.expr) (F.post self.now.expr) }
        requires sound { IsSound asked.expected.now }
        ensures gives { Folds self.now name.now count.now list.now total.now asked.entry result body.old body.new }
        ensures scope { OnOk result (body.new.scope ≡ body.old.scope) }
    {
        let f = self.checker.function(name)?;
        let bound = counted(count)?;
        if !is_list_bound(bound) {
            return Err(CheckRefusal::Rule {
                rule: Rule::K15,
                span: count.span,
            });
        }
        let (item, start) = fold_shape(f, name)?;
        needs(same_type(&f.result, asked.expected), asked.rule, asked.span)?;
        let items = self.list_of(list, item, bound, body)?;
        let start = self.boxed(total, start, body)?;
        let name = name.text.clone()?;
        let count = count.text.clone()?;
        Ok(TypedForm::Fold(name, count, items, start))
    }

    /// `array_fold::<name, count>(array, total)`
    pub(crate) fn array_fold(
        &self,
        name: &Mark,
        count: &Mark,
        array: &Expr,
        total: &Expr,
        asked: Asked<'_>,
        body: &mut Body,
    ) -> Result<TypedForm, CheckRefusal>
        requires nests { Nests self.now.depth (F.pre self.now.expr) (F.post self.now.expr) }
        requires sound { IsSound asked.expected.now }
        ensures gives { FoldsAll self.now name.now count.now array.now total.now asked.entry result body.old body.new }
        ensures scope { OnOk result (body.new.scope ≡ body.old.scope) }
    {
        let f = self.checker.function(name)?;
        let length = counted(count)?;
        let (item, start) = fold_shape(f, name)?;
        needs(same_type(&f.result, asked.expected), asked.rule, asked.span)?;
        let items = self.array_of(array, item, length, body)?;
        let start = self.boxed(total, start, body)?;
        let name = name.text.clone()?;
        let count = count.text.clone()?;
        Ok(TypedForm::ArrayFold(name, count, items, start))
    }

    /// `for_while::<name>(total, context)`
    pub(crate) fn for_while(
        &self,
        name: &Mark,
        total: &Expr,
        context: &Expr,
        asked: Asked<'_>,
        body: &mut Body,
    ) -> Result<TypedForm, CheckRefusal>
        requires nests { Nests self.now.depth (F.pre self.now.expr) (F.post self.now.expr) }
        requires sound { IsSound asked.expected.now }
        ensures gives { TurnsWhile self.now name.now total.now context.now asked.entry result body.old body.new }
        ensures scope { OnOk result (body.new.scope ≡ body.old.scope) }
    {
        let f = self.checker.function(name)?;
        let (start, given) = while_shape(f, name)?;
        needs(same_type(&f.result, asked.expected), asked.rule, asked.span)?;
        let start = self.boxed(total, start, body)?;
        let given = self.boxed(context, given, body)?;
        let name = name.text.clone()?;
        Ok(TypedForm::ForWhile(name, start, given))
    }
}
