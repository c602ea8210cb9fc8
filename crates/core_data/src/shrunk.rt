//! A value shrunk to a type: what the type has as One is cut off.

ghost use Rattle.std.specs.Prelude.{◌≡◌, [], ◌∷◌, ◌++◌, ◌+◌, ◌*◌, ◌<◌, ◌≤◌, length, Some, IfOk, IsSome};
ghost use Rattle.core_data.specs.Above.{IsOfAbove};
ghost use Rattle.core_data.specs.Data.{kind_of, value_of};
ghost use Rattle.core_data.specs.Loads.{load};
ghost use Rattle.core_data.specs.Steps.{cut, before, stack_of, after_step, step_turns, Goes};
ghost use Rattle.core_data.specs.declared.shrunk.Step.TheVariants.{Shrink, JoinPair};
ghost use Rattle.simplicity.specs.Types as core;

use crate::data::{CoreType, CoreValue};
use std::alloc::{AllocError, Global};

/// What is left to do on the way to a shrunk value.
#[derive(Clone, Copy)]
pub(crate) enum Step<'a> {
    /// Shrinks a value to a type.
    Shrink(&'a CoreValue, &'a CoreType),
    /// Tags the last value as left.
    TagLeft,
    /// Tags the last value as right.
    TagRight,
    /// Joins the last two values to a pair.
    JoinPair,
}

/// The value with those parts cut that the type has as One. A list of what is left to do is kept, so a deep value
/// takes no stack.
pub fn shrink(alloc: Global, value: &CoreValue, kind: &CoreType) -> Result<CoreValue, AllocError>
    requires { IsOfAbove (value_of value.now) (kind_of kind.now) }
    ensures { IfOk result (λ shrunk.
        value_of shrunk ≡ core.shrink (value_of value.now) (kind_of kind.now)) }
{
    let mut steps = Vec::new(alloc);
    steps.push(Step::Shrink(value, kind))?;
    let mut values = Vec::new(alloc);
    while let Some(step) = steps.pop() {
        take_step(alloc, step, &mut steps, &mut values)?;
    }
    match values.pop() {
        Some(shrunk) => Ok(shrunk),
        None => unreachable!(),
    }
}

/// Takes a step, which may leave more steps.
fn take_step<'a>(
    alloc: Global,
    step: Step<'a>,
    steps: &mut Vec<Step<'a>>,
    values: &mut Vec<CoreValue>,
) -> Result<(), AllocError>
    requires { IsSome (after_step step (Some (stack_of values.old.items))) }
    ensures { IfOk result (λ _. Goes steps.old.items steps.new.items
        (after_step step.entry (Some (stack_of values.old.items)))
        (stack_of values.new.items) (step_turns step.entry)) }
{
    match step {
        Step::Shrink(value, kind) => cut_at(value, kind, steps, values)?,
        Step::TagLeft => {
            let inner = Box::new(alloc, last(values))?;
            values.push(CoreValue::Left(inner))?;
        }
        Step::TagRight => {
            let inner = Box::new(alloc, last(values))?;
            values.push(CoreValue::Right(inner))?;
        }
        Step::JoinPair => {
            let second = Box::new(alloc, last(values))?;
            let first = Box::new(alloc, last(values))?;
            values.push(CoreValue::Pair(first, second))?;
        }
    }
    Ok(())
}

/// Shrinks a value to a type, or leaves the steps that do.
fn cut_at<'a>(
    value: &'a CoreValue,
    kind: &'a CoreType,
    steps: &mut Vec<Step<'a>>,
    values: &mut Vec<CoreValue>,
) -> Result<(), AllocError>
    requires { IsSome (cut (value_of value.now) (kind_of kind.now)) }
    ensures { IfOk result (λ _. Goes steps.old.items steps.new.items
        (before (cut (value_of value.now) (kind_of kind.now)) (stack_of values.old.items))
        (stack_of values.new.items) (2 * load (value_of value.now))) }
{
    match kind {
        CoreType::One => values.push(CoreValue::Unit)?,
        CoreType::Sum(left, right) => match value {
            CoreValue::Left(inner) => plan_tag(steps, Step::TagLeft, inner, left)?,
            CoreValue::Right(inner) => plan_tag(steps, Step::TagRight, inner, right)?,
            CoreValue::Unit | CoreValue::Pair(_, _) => unreachable!(),
        },
        CoreType::Product(left, right) => match value {
            CoreValue::Pair(first, second) => plan_pair(steps, (first, left), (second, right))?,
            CoreValue::Unit | CoreValue::Left(_) | CoreValue::Right(_) => unreachable!(),
        },
    }
    Ok(())
}

/// Leaves the steps that shrink a value and tag it.
fn plan_tag<'a>(
    steps: &mut Vec<Step<'a>>,
    tag: Step<'a>,
    value: &'a CoreValue,
    kind: &'a CoreType,
) -> Result<(), AllocError>
    ensures { IfOk result (λ _. steps.new.items ≡ steps.old.items
        ++ tag.entry ∷ Shrink value.entry kind.entry ∷ []) }
{
    steps.push(tag)?;
    steps.push(Step::Shrink(value, kind))?;
    Ok(())
}

/// Leaves the steps that shrink the parts of a pair and join them.
fn plan_pair<'a>(
    steps: &mut Vec<Step<'a>>,
    first: (&'a CoreValue, &'a CoreType),
    second: (&'a CoreValue, &'a CoreType),
) -> Result<(), AllocError>
    ensures { IfOk result (λ _. steps.new.items ≡ steps.old.items
        ++ JoinPair ∷ Shrink second.entry.0 second.entry.1 ∷ Shrink first.entry.0 first.entry.1 ∷ []) }
{
    steps.push(Step::JoinPair)?;
    steps.push(Step::Shrink(second.0, second.1))?;
    steps.push(Step::Shrink(first.0, first.1))?;
    Ok(())
}

/// The last value, which is taken.
fn last(values: &mut Vec<CoreValue>) -> CoreValue
    requires { 1 ≤ length values.old.items }
    ensures { stack_of values.old.items ≡ value_of result ∷ stack_of values.new.items }
{
    match values.pop() {
        Some(value) => value,
        None => unreachable!(),
    }
}
