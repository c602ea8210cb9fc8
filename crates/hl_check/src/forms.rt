//! Expressions with parts, each form at its type.

ghost use Rattle.std.specs.Prelude.{◌≡◌, OnOk};
ghost use Rattle.simplicityhl.specs.Kinds.{IsSound};
ghost use Rattle.hl_scope.specs.Checks.{ChecksAt, ChecksExpr};
ghost use Rattle.hl_check.specs.Forms.{array_form, assert_form, dbg_form, expr_in, into_form, is_none_form, left_form, list_form, right_form, some_form, tuple_form, unwrap_form, unwrap_left_form, unwrap_right_form};
ghost use Rattle.hl_check.specs.Nests.{Nests};

use crate::checking::Checking;
use hl_data::{TypedExpr, TypedForm};
use hl_scope::{
    Asked, Body, CheckRefusal, Checker, array_parts, either_sides, either_type, is_bool, is_unit,
    list_parts, needs, option_item, option_type, tuple_parts,
};
use hl_syntax::{Expr, HlType, Rule, TypeText};
use hl_types::same_form;
use lists::Boxed;

impl<
    F: Fn(&Checker<'_>, u16, &Expr, &HlType, Rule, &mut Body) -> Result<TypedExpr, CheckRefusal>,
> Checking<'_, F> {
    /// A tuple.
    pub(crate) fn tuple(
        &self,
        parts: &[Expr],
        asked: Asked<'_>,
        body: &mut Body,
    ) -> Result<TypedForm, CheckRefusal>
        requires nests { Nests self.now.depth (F.pre self.now.expr) (F.post self.now.expr) }
        requires sound { IsSound asked.expected.now }
        ensures gives { ChecksAt (tuple_form self.now parts.now) asked.entry result body.old body.new }
        ensures scope { OnOk result (body.new.scope ≡ body.old.scope) }
    {
        let kinds = tuple_parts(asked.expected, asked.rule, asked.span)?;
        needs(parts.len() == kinds.len(), Rule::K8, asked.span)?;
        let found = self.parts(parts, kinds.as_slice(), body)?;
        Ok(TypedForm::Tuple(found))
    }

    /// An array.
    pub(crate) fn array(
        &self,
        parts: &[Expr],
        asked: Asked<'_>,
        body: &mut Body,
    ) -> Result<TypedForm, CheckRefusal>
        requires nests { Nests self.now.depth (F.pre self.now.expr) (F.post self.now.expr) }
        requires sound { IsSound asked.expected.now }
        ensures gives { ChecksAt (array_form self.now parts.now) asked.entry result body.old body.new }
        ensures scope { OnOk result (body.new.scope ≡ body.old.scope) }
    {
        let (item, count) = array_parts(asked.expected, asked.rule, asked.span)?;
        needs(parts.len() == count as usize, Rule::K8, asked.span)?;
        let found = self.items(parts, item, body)?;
        Ok(TypedForm::Array(found))
    }

    /// A list.
    pub(crate) fn list(
        &self,
        parts: &[Expr],
        asked: Asked<'_>,
        body: &mut Body,
    ) -> Result<TypedForm, CheckRefusal>
        requires nests { Nests self.now.depth (F.pre self.now.expr) (F.post self.now.expr) }
        requires sound { IsSound asked.expected.now }
        ensures gives { ChecksAt (list_form self.now parts.now) asked.entry result body.old body.new }
        ensures scope { OnOk result (body.new.scope ≡ body.old.scope) }
    {
        let (item, bound) = list_parts(asked.expected, asked.rule, asked.span)?;
        needs(parts.len() < bound as usize, Rule::K9, asked.span)?;
        let found = self.items(parts, item, body)?;
        Ok(TypedForm::List(found))
    }

    /// `assert!(e)`
    #[tactic(auto, using(hl_scope::proofs::Sounds::sound_bool))]
    pub(crate) fn assertion(
        &self,
        e: &Expr,
        asked: Asked<'_>,
        body: &mut Body,
    ) -> Result<TypedForm, CheckRefusal>
        requires nests { Nests self.now.depth (F.pre self.now.expr) (F.post self.now.expr) }
        requires sound { IsSound asked.expected.now }
        ensures gives { ChecksAt (assert_form self.now e.now) asked.entry result body.old body.new }
        ensures scope { OnOk result (body.new.scope ≡ body.old.scope) }
    {
        needs(is_unit(asked.expected), asked.rule, asked.span)?;
        let found = self.boxed(e, &HlType::Bool, body)?;
        Ok(TypedForm::Assert(found))
    }

    /// `dbg!(e)`
    pub(crate) fn debug(
        &self,
        e: &Expr,
        asked: Asked<'_>,
        body: &mut Body,
    ) -> Result<TypedForm, CheckRefusal>
        requires nests { Nests self.now.depth (F.pre self.now.expr) (F.post self.now.expr) }
        requires sound { IsSound asked.expected.now }
        ensures gives { ChecksAt (dbg_form self.now e.now) asked.entry result body.old body.new }
        ensures scope { OnOk result (body.new.scope ≡ body.old.scope) }
    {
        let found = self.boxed(e, asked.expected, body)?;
        Ok(TypedForm::Dbg(found))
    }

    /// A part that is an option of an item, in a box.
    fn option_part(
        &self,
        e: &Expr,
        item: &HlType,
        body: &mut Body,
    ) -> Result<Boxed<TypedExpr>, CheckRefusal>
        requires nests { Nests self.now.depth (F.pre self.now.expr) (F.post self.now.expr) }
        requires sound { IsSound item.now }
        ensures gives { ChecksExpr (expr_in self.now e.now) (HlType.Option item.now) Rule.K6 result body.old body.new }
        ensures scope { OnOk result (body.new.scope ≡ body.old.scope) }
    {
        let kind = option_type(self.checker.alloc(), item)?;
        self.boxed(e, &kind, body)
    }

    /// A part that is an either of a left and a right, in a box.
    fn either_part(
        &self,
        e: &Expr,
        left: &HlType,
        right: &HlType,
        body: &mut Body,
    ) -> Result<Boxed<TypedExpr>, CheckRefusal>
        requires nests { Nests self.now.depth (F.pre self.now.expr) (F.post self.now.expr) }
        requires left { IsSound left.now }
        requires right { IsSound right.now }
        ensures gives { ChecksExpr (expr_in self.now e.now) (HlType.Either left.now right.now)
            Rule.K6 result body.old body.new }
        ensures scope { OnOk result (body.new.scope ≡ body.old.scope) }
    {
        let kind = either_type(self.checker.alloc(), left, right)?;
        self.boxed(e, &kind, body)
    }

    /// `unwrap(e)`
    pub(crate) fn unwrap(
        &self,
        e: &Expr,
        asked: Asked<'_>,
        body: &mut Body,
    ) -> Result<TypedForm, CheckRefusal>
        requires nests { Nests self.now.depth (F.pre self.now.expr) (F.post self.now.expr) }
        requires sound { IsSound asked.expected.now }
        ensures gives { ChecksAt (unwrap_form self.now e.now) asked.entry result body.old body.new }
        ensures scope { OnOk result (body.new.scope ≡ body.old.scope) }
    {
        let found = self.option_part(e, asked.expected, body)?;
        Ok(TypedForm::Unwrap(found))
    }

    /// `unwrap_left::<other>(e)`
    pub(crate) fn unwrap_left(
        &self,
        text: &TypeText,
        e: &Expr,
        asked: Asked<'_>,
        body: &mut Body,
    ) -> Result<TypedForm, CheckRefusal>
        requires nests { Nests self.now.depth (F.pre self.now.expr) (F.post self.now.expr) }
        requires sound { IsSound asked.expected.now }
        ensures gives { ChecksAt (unwrap_left_form self.now text.now e.now) asked.entry result body.old body.new }
        ensures scope { OnOk result (body.new.scope ≡ body.old.scope) }
    {
        let other = self.checker.written(text)?;
        let found = self.either_part(e, asked.expected, &other, body)?;
        Ok(TypedForm::UnwrapLeft(other, found))
    }

    /// `unwrap_right::<other>(e)`
    pub(crate) fn unwrap_right(
        &self,
        text: &TypeText,
        e: &Expr,
        asked: Asked<'_>,
        body: &mut Body,
    ) -> Result<TypedForm, CheckRefusal>
        requires nests { Nests self.now.depth (F.pre self.now.expr) (F.post self.now.expr) }
        requires sound { IsSound asked.expected.now }
        ensures gives { ChecksAt (unwrap_right_form self.now text.now e.now) asked.entry result body.old body.new }
        ensures scope { OnOk result (body.new.scope ≡ body.old.scope) }
    {
        let other = self.checker.written(text)?;
        let found = self.either_part(e, &other, asked.expected, body)?;
        Ok(TypedForm::UnwrapRight(other, found))
    }

    /// `is_none::<item>(e)`
    pub(crate) fn is_none(
        &self,
        text: &TypeText,
        e: &Expr,
        asked: Asked<'_>,
        body: &mut Body,
    ) -> Result<TypedForm, CheckRefusal>
        requires nests { Nests self.now.depth (F.pre self.now.expr) (F.post self.now.expr) }
        requires sound { IsSound asked.expected.now }
        ensures gives { ChecksAt (is_none_form self.now text.now e.now) asked.entry result body.old body.new }
        ensures scope { OnOk result (body.new.scope ≡ body.old.scope) }
    {
        let item = self.checker.written(text)?;
        needs(is_bool(asked.expected), asked.rule, asked.span)?;
        let found = self.option_part(e, &item, body)?;
        Ok(TypedForm::IsNone(item, found))
    }

    /// `<source>::into(e)`
    pub(crate) fn into(
        &self,
        text: &TypeText,
        e: &Expr,
        asked: Asked<'_>,
        body: &mut Body,
    ) -> Result<TypedForm, CheckRefusal>
        requires nests { Nests self.now.depth (F.pre self.now.expr) (F.post self.now.expr) }
        requires sound { IsSound asked.expected.now }
        ensures gives { ChecksAt (into_form self.now text.now e.now) asked.entry result body.old body.new }
        ensures scope { OnOk result (body.new.scope ≡ body.old.scope) }
    {
        let source = self.checker.written(text)?;
        let fits = same_form(self.checker.alloc(), &source, asked.expected)?;
        needs(fits, Rule::K12, asked.span)?;
        let found = self.boxed(e, &source, body)?;
        Ok(TypedForm::Into(source, found))
    }

    /// `Left(e)`
    pub(crate) fn left(
        &self,
        e: &Expr,
        asked: Asked<'_>,
        body: &mut Body,
    ) -> Result<TypedForm, CheckRefusal>
        requires nests { Nests self.now.depth (F.pre self.now.expr) (F.post self.now.expr) }
        requires sound { IsSound asked.expected.now }
        ensures gives { ChecksAt (left_form self.now e.now) asked.entry result body.old body.new }
        ensures scope { OnOk result (body.new.scope ≡ body.old.scope) }
    {
        let (left, _) = either_sides(asked.expected, asked.rule, asked.span)?;
        let found = self.boxed(e, left, body)?;
        Ok(TypedForm::Left(found))
    }

    /// `Right(e)`
    pub(crate) fn right(
        &self,
        e: &Expr,
        asked: Asked<'_>,
        body: &mut Body,
    ) -> Result<TypedForm, CheckRefusal>
        requires nests { Nests self.now.depth (F.pre self.now.expr) (F.post self.now.expr) }
        requires sound { IsSound asked.expected.now }
        ensures gives { ChecksAt (right_form self.now e.now) asked.entry result body.old body.new }
        ensures scope { OnOk result (body.new.scope ≡ body.old.scope) }
    {
        let (_, right) = either_sides(asked.expected, asked.rule, asked.span)?;
        let found = self.boxed(e, right, body)?;
        Ok(TypedForm::Right(found))
    }

    /// `Some(e)`
    pub(crate) fn some(
        &self,
        e: &Expr,
        asked: Asked<'_>,
        body: &mut Body,
    ) -> Result<TypedForm, CheckRefusal>
        requires nests { Nests self.now.depth (F.pre self.now.expr) (F.post self.now.expr) }
        requires sound { IsSound asked.expected.now }
        ensures gives { ChecksAt (some_form self.now e.now) asked.entry result body.old body.new }
        ensures scope { OnOk result (body.new.scope ≡ body.old.scope) }
    {
        let item = option_item(asked.expected, asked.rule, asked.span)?;
        let found = self.boxed(e, item, body)?;
        Ok(TypedForm::Some(found))
    }
}
