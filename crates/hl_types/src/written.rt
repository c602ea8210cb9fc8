//! The type that a written type stands for.

ghost use Rattle.std.specs.Prelude.{◌≡◌, IfOk, map, nat_lt};
ghost use Rattle.std.specs.List.{All};
ghost use Rattle.hl_types.specs.Answers.{AnswersType};
ghost use Rattle.hl_types.specs.Walks.{AreSound, walk_form};
ghost use Rattle.simplicity.specs.Limits.{most_weight};
ghost use Rattle.simplicity.specs.Types.{weight};
ghost use Rattle.simplicityhl.specs.Kinds.{form, IsSound};
ghost use Rattle.simplicityhl.specs.Written.{in_turn, known, named, walk};

use crate::counts::{bounded, counted};
use crate::kinds::structure;
use crate::names::type_named;
use crate::refusal::TypeRefusal;
use hl_syntax::{Aliases, HlType, HlTypes, Limit, Rule, Span, TypeForm, TypeText, TypeTexts};
use lists::Boxed;
use std::alloc::{AllocError, Global};
use type_table::{MOST_WEIGHT, TypeTable};

/// Whether the tree of a type's form has more than 4,194,304 nodes.
fn is_heavy(alloc: Global, kind: &HlType) -> Result<bool, AllocError>
    requires { IsSound kind.now }
    ensures { IfOk result (λ heavy. heavy ≡ nat_lt most_weight (weight (form kind.now))) }
{
    let mut types = TypeTable::new(alloc);
    let id = structure(alloc, kind, &mut types)?;
    Ok(types.weight(id) > MOST_WEIGHT)
}

/// The type that a name with a span stands for.
fn resolve_name(
    alloc: Global,
    name: &str,
    span: Span,
    aliases: &Aliases,
) -> Result<HlType, TypeRefusal>
    requires { AreSound aliases.now }
    ensures answers { AnswersType (known span (named aliases.now name.now)) result }
    ensures sound { IfOk result IsSound }
{
    match type_named(alloc, name, aliases.as_slice())? {
        Some(kind) => Ok(kind),
        None => Err(TypeRefusal::Rule {
            rule: Rule::K2,
            span,
        }),
    }
}

/// The type that a written type stands for, after the aliases before it.
///
/// # Errors
///
/// The first rule or limit that is broken where the type's parts are walked from the left: `Rule`
/// K2 for an unknown name and K10 for a list's bound that is no power of two from 2 up, `Limit` L4
/// for a count past 65,536 and L5 for a type whose form has more than 4,194,304 nodes; and
/// `OutOfMemory`.
#[cycle(resolve)]
pub fn resolve(alloc: Global, text: &TypeText, aliases: &Aliases) -> Result<HlType, TypeRefusal>
    requires { AreSound aliases.now }
    ensures answers { AnswersType (walk aliases.now text.now) result }
    ensures sound { IfOk result IsSound }
{
    let kind = resolve_form(alloc, &text.form, text.span, aliases)?;
    if is_heavy(alloc, &kind)? {
        return Err(TypeRefusal::Limit {
            limit: Limit::L5,
            span: text.span,
        });
    }
    Ok(kind)
}

/// The types that written types stand for.
#[cycle(resolve)]
pub(crate) fn resolve_parts(
    alloc: Global,
    texts: &TypeTexts,
    aliases: &Aliases,
) -> Result<HlTypes, TypeRefusal>
    requires { AreSound aliases.now }
    ensures answers { AnswersType (in_turn (map (walk aliases.now) texts.now)) result }
    ensures sound { IfOk result (λ kinds. All IsSound kinds) }
{
    let mut kinds = HlTypes::new(alloc);
    'parts: for text in texts.as_slice() {
        let kind = resolve(alloc, text, aliases)?;
        kinds.push(kind)?;
    }
    Ok(kinds)
}

/// The type that the form of a written type with a span stands for.
#[cycle(resolve)]
pub(crate) fn resolve_form(
    alloc: Global,
    form: &TypeForm,
    span: Span,
    aliases: &Aliases,
) -> Result<HlType, TypeRefusal>
    requires { AreSound aliases.now }
    ensures answers { AnswersType (walk_form aliases.now form.now span) result }
    ensures sound { IfOk result IsSound }
{
    match form {
        TypeForm::Tuple(parts) => {
            let kinds = resolve_parts(alloc, parts, aliases)?;
            Ok(HlType::Tuple(kinds))
        }
        TypeForm::Array(item, length) => {
            let kind = resolve(alloc, item.get(), aliases)?;
            let count = counted(length)?;
            Ok(HlType::Array(Boxed::new(alloc, kind)?, count))
        }
        TypeForm::List(item, bound) => {
            let kind = resolve(alloc, item.get(), aliases)?;
            let count = counted(bound)?;
            let count = bounded(bound, count)?;
            Ok(HlType::List(Boxed::new(alloc, kind)?, count))
        }
        TypeForm::Option(item) => {
            let kind = resolve(alloc, item.get(), aliases)?;
            Ok(HlType::Option(Boxed::new(alloc, kind)?))
        }
        TypeForm::Either(left, right) => {
            let first = resolve(alloc, left.get(), aliases)?;
            let second = resolve(alloc, right.get(), aliases)?;
            Ok(HlType::Either(Boxed::new(alloc, first)?, Boxed::new(alloc, second)?))
        }
        TypeForm::Name(name) => resolve_name(alloc, name.as_str(), span, aliases),
    }
}
