//! Patterns, parameters and sides bind names to parts of values.

ghost use Rattle.std.specs.Prelude.{IsTrue, is_some};
ghost use Rattle.hl_data.specs.declared.value.HlValue.TheViews.{out-HlValue};
ghost use Rattle.hl_meaning.specs.Mean.{taken};
ghost use Rattle.hl_eval.specs.Outcome.{Leaves};
ghost use Rattle.hl_eval.specs.Over.{bound_over, each_over, given_over, taken_over};

use crate::fault::EvalFault;
use crate::scope::Scope;
use hl_data::{HlValue, HlValues, TypedSide};
use hl_syntax::{Pattern, PatternForm, Patterns, Wanted};

/// Binds the names of a pattern to the parts of a value.
#[cycle(bindings)]
pub(crate) fn bind(scope: &mut Scope, pattern: &Pattern, value: HlValue) -> Result<(), EvalFault>
    ensures { Leaves (bound_over pattern.now value scope.old) result scope.new }
{
    match &pattern.form {
        PatternForm::Name(name) => Ok(scope.bind(name, value)?),
        PatternForm::Ignore => Ok(()),
        PatternForm::Tuple(patterns) => match value {
            HlValue::Tuple(values) => bind_each(scope, patterns, values),
            _ => Err(EvalFault::NoAnswer),
        },
        PatternForm::Array(patterns) => match value {
            HlValue::Array(values) => bind_each(scope, patterns, values),
            _ => Err(EvalFault::NoAnswer),
        },
    }
}

/// Binds the names of each pattern to the parts of the value at its place, from the last to the first.
#[cycle(bindings)]
fn bind_each(scope: &mut Scope, patterns: &Patterns, values: HlValues) -> Result<(), EvalFault>
    ensures { Leaves (each_over patterns.now values scope.old) result scope.new }
{
    let mut values = values.into_vec();
    if values.len() != patterns.len() {
        return Err(EvalFault::NoAnswer);
    }
    'values: while let Some(value) = values.pop() {
        bind(scope, patterns.get(values.len()), value)?;
    }
    Ok(())
}

/// Binds the parameters of a function to the values of its arguments.
pub(crate) fn bind_parameters(
    scope: &mut Scope,
    params: &Wanted,
    arguments: HlValues,
) -> Result<(), EvalFault>
    ensures { Leaves (given_over params.now arguments scope.old) result scope.new }
{
    let mut arguments = arguments.into_vec();
    if arguments.len() != params.len() {
        return Err(EvalFault::NoAnswer);
    }
    'arguments: while let Some(argument) = arguments.pop() {
        scope.bind(&params.get(arguments.len()).name, argument)?;
    }
    Ok(())
}

/// Binds the names of a side to the parts of the value that it takes.
pub(crate) fn bind_side(
    scope: &mut Scope,
    side: &TypedSide,
    value: HlValue,
) -> Result<(), EvalFault>
    requires { IsTrue (is_some (taken side.now (out-HlValue value))) }
    ensures { Leaves (taken_over (taken side.now (out-HlValue value)) scope.old) result scope.new }
{
    match side {
        TypedSide::Left(pattern, _) => match value {
            HlValue::Left(part) => bind(scope, pattern, part.into_inner()),
            _ => Err(EvalFault::NoAnswer),
        },
        TypedSide::Right(pattern, _) => match value {
            HlValue::Right(part) => bind(scope, pattern, part.into_inner()),
            _ => Err(EvalFault::NoAnswer),
        },
        TypedSide::Some(pattern, _) => match value {
            HlValue::Some(part) => bind(scope, pattern, part.into_inner()),
            _ => Err(EvalFault::NoAnswer),
        },
        TypedSide::Nothing | TypedSide::True | TypedSide::False => Ok(()),
    }
}
