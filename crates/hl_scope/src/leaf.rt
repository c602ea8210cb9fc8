//! Names: variables, witnesses and parameters of the program.

ghost use Rattle.std.specs.Prelude.{◌≡◌, OnOk};
ghost use Rattle.hl_rules.specs.Exprs.{may_stand};
ghost use Rattle.hl_rules.specs.Places.{variable_type};
ghost use Rattle.hl_rules.specs.Steps.{wants};
ghost use Rattle.hl_scope.specs.Checks.{ChecksAs, ChecksAt};
ghost use Rattle.hl_scope.specs.Leaves.{name_form, param_form, witness_form};

use crate::asked::Asked;
use crate::body::Body;
use crate::context::Checker;
use crate::copies::copy_value;
use crate::refusal::{CheckRefusal, needs};
use crate::scope::{Scope, first_named};
use hl_data::TypedForm;
use hl_syntax::{HlType, Mark, Rule, Span, TypedName};
use hl_types::{copy_type, same_type};
use lists::Text;

/// The type of the innermost variable of a name.
fn variable<'a>(scope: &'a Scope, name: &Text, span: Span) -> Result<&'a HlType, CheckRefusal>
    ensures { ChecksAs (λ kind. kind.now) (wants (variable_type scope.now name.now) Rule.K4 span) result }
{
    match scope.type_of(name.as_str()) {
        Some(kind) => Ok(kind),
        None => Err(CheckRefusal::Rule {
            rule: Rule::K4,
            span,
        }),
    }
}

/// Whether a witness may stand at a type, after those that were met: a name that was met stands
/// again in edition 2 alone, where that type was expected at its first place too.
fn may_stand(edition: u8, met: &[TypedName], name: &str, expected: &HlType) -> bool
    ensures { result ≡ may_stand edition met.now name.now expected.now }
{
    match first_named(met, name) {
        Some(first) => edition == 2 && same_type(&first.kind, expected),
        None => true,
    }
}

impl Checker<'_> {
    /// A variable.
    pub fn name(
        &self,
        name: &Text,
        asked: Asked<'_>,
        body: &mut Body,
    ) -> Result<TypedForm, CheckRefusal>
        ensures gives { ChecksAt (name_form self.now name.now) asked.entry result body.old body.new }
        ensures scope { OnOk result (body.new.scope ≡ body.old.scope) }
    {
        let known = variable(&body.scope, name, asked.span)?;
        needs(same_type(known, asked.expected), asked.rule, asked.span)?;
        Ok(TypedForm::Name(name.clone()?))
    }

    /// A witness, whose name is met.
    pub fn witness(
        &self,
        name: &Mark,
        asked: Asked<'_>,
        body: &mut Body,
    ) -> Result<TypedForm, CheckRefusal>
        ensures gives { ChecksAt (witness_form self.now name.now) asked.entry result body.old body.new }
        ensures scope { OnOk result (body.new.scope ≡ body.old.scope) }
    {
        needs(self.is_main(), Rule::K16, name.span)?;
        let may = may_stand(
            self.edition(),
            body.met.as_slice(),
            name.text.as_str(),
            asked.expected,
        );
        needs(may, Rule::K17, name.span)?;
        let kind = copy_type(self.alloc(), asked.expected)?;
        let met = TypedName {
            name: name.text.clone()?,
            kind,
        };
        body.met.push(met)?;
        Ok(TypedForm::Witness(name.text.clone()?))
    }

    /// A parameter of the program.
    pub fn param(
        &self,
        name: &Mark,
        asked: Asked<'_>,
        body: &mut Body,
    ) -> Result<TypedForm, CheckRefusal>
        ensures gives { ChecksAt (param_form self.now name.now) asked.entry result body.old body.new }
        ensures scope { OnOk result (body.new.scope ≡ body.old.scope) }
    {
        let entry = self.entry(name)?;
        needs(same_type(&entry.kind, asked.expected), Rule::K19, name.span)?;
        Ok(TypedForm::Value(copy_value(self.alloc(), &entry.value)?))
    }
}
