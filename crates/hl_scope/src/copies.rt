//! Copies of patterns and values.

ghost use Rattle.std.specs.Prelude.{◌≡◌, IfOk};

use hl_data::{HlValue, HlValues};
use hl_syntax::{Pattern, PatternForm, Patterns};
use lists::Boxed;
use std::alloc::{AllocError, Global};

/// A copy of patterns, one by one.
#[cycle(patterns)]
fn copy_patterns(alloc: Global, patterns: &[Pattern]) -> Result<Patterns, AllocError>
    ensures { IfOk result (λ copies. copies ≡ patterns.now) }
{
    let mut copies = Patterns::new(alloc);
    'patterns: for pattern in patterns {
        let copy = copy_pattern(alloc, pattern)?;
        copies.push(copy)?;
    }
    Ok(copies)
}

/// A copy of a pattern.
#[cycle(patterns)]
pub fn copy_pattern(alloc: Global, pattern: &Pattern) -> Result<Pattern, AllocError>
    ensures { IfOk result (λ copy. copy ≡ pattern.now) }
{
    let form = match &pattern.form {
        PatternForm::Name(name) => PatternForm::Name(name.clone()?),
        PatternForm::Ignore => PatternForm::Ignore,
        PatternForm::Tuple(parts) => PatternForm::Tuple(copy_patterns(alloc, parts.as_slice())?),
        PatternForm::Array(parts) => PatternForm::Array(copy_patterns(alloc, parts.as_slice())?),
    };
    Ok(Pattern {
        form,
        span: pattern.span,
    })
}

/// A copy of values, one by one.
#[cycle(values)]
fn copy_values(alloc: Global, values: &[HlValue]) -> Result<HlValues, AllocError>
    ensures { IfOk result (λ copies. copies ≡ values.now) }
{
    let mut copies = HlValues::new(alloc);
    'values: for value in values {
        let copy = copy_value(alloc, value)?;
        copies.push(copy)?;
    }
    Ok(copies)
}

/// A copy of a value.
#[cycle(values)]
pub(crate) fn copy_value(alloc: Global, value: &HlValue) -> Result<HlValue, AllocError>
    ensures { IfOk result (λ copy. copy ≡ value.now) }
{
    match value {
        HlValue::Bool(truth) => Ok(HlValue::Bool(*truth)),
        HlValue::Number(word) => Ok(HlValue::Number(*word)),
        HlValue::Tuple(parts) => Ok(HlValue::Tuple(copy_values(alloc, parts.as_slice())?)),
        HlValue::Array(parts) => Ok(HlValue::Array(copy_values(alloc, parts.as_slice())?)),
        HlValue::List(parts) => Ok(HlValue::List(copy_values(alloc, parts.as_slice())?)),
        HlValue::Nothing => Ok(HlValue::Nothing),
        HlValue::Some(item) => {
            let item = copy_value(alloc, item.get())?;
            Ok(HlValue::Some(Boxed::new(alloc, item)?))
        }
        HlValue::Left(item) => {
            let item = copy_value(alloc, item.get())?;
            Ok(HlValue::Left(Boxed::new(alloc, item)?))
        }
        HlValue::Right(item) => {
            let item = copy_value(alloc, item.get())?;
            Ok(HlValue::Right(Boxed::new(alloc, item)?))
        }
    }
}
