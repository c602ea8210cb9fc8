//! Calls of functions and jets.

ghost use Rattle.std.specs.Prelude.{◌≡◌, length, OnOk};
ghost use Rattle.hl_types.specs.Walks.{AreSound};
ghost use Rattle.simplicityhl.specs.Kinds.{IsSound};
ghost use Rattle.hl_scope.specs.Checks.{Checks, ChecksAt, ChecksIn};
ghost use Rattle.hl_check.specs.Forms.{arguments_in, call_form, jet_form};
ghost use Rattle.hl_check.specs.Jets.{result_fits};
ghost use Rattle.hl_check.specs.Nests.{Nests};

use crate::checking::Checking;
use hl_data::{TypedExpr, TypedExprs, TypedForm};
use hl_scope::{Asked, Body, CheckRefusal, Checker, argument_types, jet_row, needs, result_type};
use hl_syntax::{Expr, HlType, Mark, Rule, Wanted};
use hl_types::same_type;
use jet_table::JetRow;
use std::alloc::Global;

/// That the result of a jet is of the type that is asked.
fn result_fits(alloc: Global, row: &JetRow, asked: Asked<'_>) -> Result<(), CheckRefusal>
    ensures { Checks (result_fits row.now asked.entry) result }
{
    let given = result_type(alloc, row)?;
    needs(same_type(&given, asked.expected), asked.rule, asked.span)
}

impl<
    F: Fn(&Checker<'_>, u16, &Expr, &HlType, Rule, &mut Body) -> Result<TypedExpr, CheckRefusal>,
> Checking<'_, F> {
    /// Arguments at the types of parameters, one after the other.
    #[tactic(auto, using(crate::proofs::Exprs::argument_next, crate::proofs::Exprs::no_argument, hl_scope::proofs::Sounds::param_sound))]
    fn arguments(
        &self,
        parts: &[Expr],
        params: &Wanted,
        body: &mut Body,
    ) -> Result<TypedExprs, CheckRefusal>
        requires nests { Nests self.now.depth (F.pre self.now.expr) (F.post self.now.expr) }
        requires as_many { length parts.now ≡ length params.now }
        requires sound { AreSound params.now }
        ensures gives { ChecksIn (arguments_in self.now parts.now params.now) result body.old body.new }
        ensures scope { OnOk result (body.new.scope ≡ body.old.scope) }
    {
        let mut found = TypedExprs::new(self.checker.alloc());
        'parts: for (place, part) in parts.iter().enumerate() {
            let param = params.get(place);
            let one = self.part(part, &param.kind, Rule::K6, body)?;
            found.push(one)?;
        }
        Ok(found)
    }

    /// A call of a function before.
    pub(crate) fn call(
        &self,
        name: &Mark,
        parts: &[Expr],
        asked: Asked<'_>,
        body: &mut Body,
    ) -> Result<TypedForm, CheckRefusal>
        requires nests { Nests self.now.depth (F.pre self.now.expr) (F.post self.now.expr) }
        requires sound { IsSound asked.expected.now }
        ensures gives { ChecksAt (call_form self.now name.now parts.now) asked.entry result body.old body.new }
        ensures scope { OnOk result (body.new.scope ≡ body.old.scope) }
    {
        let f = self.checker.function(name)?;
        needs(parts.len() == f.params.len(), Rule::K11, asked.span)?;
        needs(same_type(&f.result, asked.expected), asked.rule, asked.span)?;
        let found = self.arguments(parts, &f.params, body)?;
        let name = name.text.clone()?;
        Ok(TypedForm::Call(name, found))
    }

    /// A call of a jet.
    pub(crate) fn jet(
        &self,
        name: &Mark,
        parts: &[Expr],
        asked: Asked<'_>,
        body: &mut Body,
    ) -> Result<TypedForm, CheckRefusal>
        requires nests { Nests self.now.depth (F.pre self.now.expr) (F.post self.now.expr) }
        requires sound { IsSound asked.expected.now }
        ensures gives { ChecksAt (jet_form self.now name.now parts.now) asked.entry result body.old body.new }
        ensures scope { OnOk result (body.new.scope ≡ body.old.scope) }
    {
        let row = jet_row(name)?;
        let kinds = argument_types(self.checker.alloc(), &row)?;
        needs(parts.len() == kinds.len(), Rule::K11, asked.span)?;
        result_fits(self.checker.alloc(), &row, asked)?;
        let found = self.parts(parts, kinds.as_slice(), body)?;
        let name = name.text.clone()?;
        Ok(TypedForm::Jet(name, found))
    }
}
