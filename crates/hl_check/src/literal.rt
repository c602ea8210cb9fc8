//! Literals, and the numbers that they stand for.

ghost use Rattle.std.specs.Prelude.{◌≡◌, ◌^◌, nat_lt, IsTrue, OnOk};
ghost use Rattle.hl_meaning.specs.Literals.{literal_value};
ghost use Rattle.hl_scope.specs.Checks.{ChecksAt};
ghost use Rattle.hl_scope.specs.Leaves.{literal_form};
ghost use Rattle.simplicityhl.specs.Kinds.{is_width, IsSound};

use hl_data::TypedForm;
use hl_literals::word_spelled;
use hl_scope::{Asked, Body, CheckRefusal, Checker, needs, number_width};
use hl_syntax::Rule;
use lists::Text;

/// Whether a literal's number fits a width.
fn literal_fits(word: &str, width: u16) -> bool
    requires { IsTrue (is_width width) }
    ensures { result ≡ nat_lt (literal_value word.now) (2 ^ width) }
{
    match word_spelled(word, width) {
        Some(_) => true,
        None => false,
    }
}

/// A literal.
pub(crate) fn literal(
    checker: &Checker<'_>,
    word: &Text,
    asked: Asked<'_>,
    body: &mut Body,
) -> Result<TypedForm, CheckRefusal>
    requires { IsSound asked.expected.now }
    ensures gives { ChecksAt (literal_form checker.now word.now) asked.entry result body.old body.new }
    ensures scope { OnOk result (body.new.scope ≡ body.old.scope) }
{
    let width = number_width(asked.expected, asked.rule, asked.span)?;
    needs(literal_fits(word.as_str(), width), Rule::K7, asked.span)?;
    Ok(TypedForm::Literal(word.clone()?))
}
