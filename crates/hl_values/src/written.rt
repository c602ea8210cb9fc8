//! Written values at their types.

ghost use Rattle.std.specs.Prelude.{◌≡◌, map, length, IfOk, IsTrue};
ghost use Rattle.std.specs.List.{list_all};
ghost use Rattle.hl_meaning.specs.Literals.{literal_value};
ghost use Rattle.simplicityhl.specs.Kinds.{is_sound};
ghost use Rattle.hl_values.specs.Reads.{AnswersValue};
ghost use Rattle.hl_values.specs.Written.{all_at, each_at, number_at, written, written_form};
ghost use Rattle.simplicityhl.specs.Kinds.{is_width, IsSound};

use crate::refusal::ValueRefusal;
use hl_data::{HlValue, HlValues};
use hl_literals::word_spelled;
use hl_syntax::{Expr, ExprForm, Exprs, HlType, HlTypes};
use lists::Boxed;
use std::alloc::Global;

/// The number of a width that a literal spells.
fn number(word: &str, width: u16) -> Result<HlValue, ValueRefusal>
    requires { IsTrue (is_width width) }
    ensures { AnswersValue (number_at width (literal_value word.now)) result }
{
    match word_spelled(word, width) {
        Some(word) => Ok(HlValue::Number(word)),
        None => Err(ValueRefusal::NotValue),
    }
}

/// Each written value at the type at its place.
#[cycle(written)]
#[tactic(auto, using(crate::proofs::Encoding::kinds_at, crate::proofs::Reading::part_refused))]
pub(crate) fn parts_at(
    alloc: Global,
    parts: &Exprs,
    kinds: &HlTypes,
) -> Result<HlValues, ValueRefusal>
    requires { IsTrue (list_all (λ kind. kind) (map is_sound kinds.now)) }
    ensures { AnswersValue (each_at (map written parts.now) kinds.now) result }
{
    if parts.len() != kinds.len() {
        return Err(ValueRefusal::NotValue);
    }
    let mut values = HlValues::new(alloc);
    'parts: for (place, part) in parts.as_slice().iter().enumerate() {
        let value = value_at(alloc, part, kinds.get(place))?;
        values.push(value)?;
    }
    Ok(values)
}

/// Each written value at one type.
#[cycle(written)]
pub(crate) fn items_at(
    alloc: Global,
    items: &Exprs,
    kind: &HlType,
) -> Result<HlValues, ValueRefusal>
    requires { IsSound kind.now }
    ensures { AnswersValue (all_at (map written items.now) kind.now) result }
{
    let mut values = HlValues::new(alloc);
    'items: for item in items.as_slice() {
        let value = value_at(alloc, item, kind)?;
        values.push(value)?;
    }
    Ok(values)
}

/// The value of the type that an expression is.
#[cycle(written)]
pub(crate) fn value_at(alloc: Global, tree: &Expr, kind: &HlType) -> Result<HlValue, ValueRefusal>
    requires { IsSound kind.now }
    ensures { AnswersValue (written tree.now kind.now) result }
{
    Ok(form_at(alloc, &tree.form, kind)?)
}

/// The value of the type that the form of an expression is.
#[cycle(written)]
pub(crate) fn form_at(
    alloc: Global,
    form: &ExprForm,
    kind: &HlType,
) -> Result<HlValue, ValueRefusal>
    requires { IsSound kind.now }
    ensures { AnswersValue (written_form form.now kind.now) result }
{
    match kind {
        HlType::Bool => match form {
            ExprForm::True => Ok(HlValue::Bool(true)),
            ExprForm::False => Ok(HlValue::Bool(false)),
            _ => Err(ValueRefusal::NotValue),
        },
        HlType::UInt(width) => match form {
            ExprForm::Literal(word) => number(word.as_str(), *width),
            _ => Err(ValueRefusal::NotValue),
        },
        HlType::Tuple(kinds) => match form {
            ExprForm::Tuple(parts) => Ok(HlValue::Tuple(parts_at(alloc, parts, kinds)?)),
            _ => Err(ValueRefusal::NotValue),
        },
        HlType::Array(item, count) => match form {
            ExprForm::Array(items) if items.len() == *count as usize => {
                Ok(HlValue::Array(items_at(alloc, items, item.get())?))
            }
            _ => Err(ValueRefusal::NotValue),
        },
        HlType::List(item, bound) => match form {
            ExprForm::List(items) if items.len() < *bound as usize => {
                Ok(HlValue::List(items_at(alloc, items, item.get())?))
            }
            _ => Err(ValueRefusal::NotValue),
        },
        HlType::Option(item) => match form {
            ExprForm::Nothing => Ok(HlValue::Nothing),
            ExprForm::Some(part) => {
                let part = value_at(alloc, part.get(), item.get())?;
                Ok(HlValue::Some(Boxed::new(alloc, part)?))
            }
            _ => Err(ValueRefusal::NotValue),
        },
        HlType::Either(left, right) => match form {
            ExprForm::Left(part) => {
                let part = value_at(alloc, part.get(), left.get())?;
                Ok(HlValue::Left(Boxed::new(alloc, part)?))
            }
            ExprForm::Right(part) => {
                let part = value_at(alloc, part.get(), right.get())?;
                Ok(HlValue::Right(Boxed::new(alloc, part)?))
            }
            _ => Err(ValueRefusal::NotValue),
        },
    }
}
