//! Shapes of functions that loops may call.

ghost use Rattle.std.specs.Prelude.{◌≡◌, IfOk};
ghost use Rattle.hl_rules.specs.Exprs.{is_counter, goes_on};
ghost use Rattle.hl_rules.specs.Same.{either_of, width_of};
ghost use Rattle.hl_types.specs.Walks.{AreSound};
ghost use Rattle.simplicityhl.specs.Kinds.{IsSound};
ghost use Rattle.hl_scope.specs.Checks.{ChecksAs};
ghost use Rattle.hl_scope.specs.Contexts.{fold_types, while_types};

use crate::refusal::CheckRefusal;
use hl_data::TypedFunction;
use hl_syntax::{HlType, Mark, Rule};
use hl_types::same_type;

/// The types of the items and of the accumulator, where a function takes an item and an accumulator
/// to an accumulator.
#[tactic(auto, using(crate::proofs::Sounds::first_two_sound))]
pub fn fold_shape<'a>(
    f: &'a TypedFunction,
    name: &Mark,
) -> Result<(&'a HlType, &'a HlType), CheckRefusal>
    ensures sound { AreSound f.now.params → IfOk result (λ shape. IsSound shape.0.now × IsSound shape.1.now) }
    ensures answers { ChecksAs (λ shape. (shape.0.now, shape.1.now)) (fold_types f.now name.now) result }
{
    if let [item, total] = f.params.as_slice() {
        if same_type(&total.kind, &f.result) {
            return Ok((&item.kind, &total.kind));
        }
    }
    Err(CheckRefusal::Rule {
        rule: Rule::K14,
        span: name.span,
    })
}

/// Whether a type is that of a loop's counter.
fn is_counter(kind: &HlType) -> bool
    ensures { result ≡ is_counter (width_of kind.now) }
{
    match kind {
        HlType::UInt(width) => *width <= 16,
        _ => false,
    }
}

/// Whether a result goes on with an accumulator on its right.
fn goes_on(total: &HlType, kind: &HlType) -> bool
    ensures { result ≡ goes_on total.now (either_of kind.now) }
{
    match kind {
        HlType::Either(_, right) => same_type(total, right.get()),
        _ => false,
    }
}

/// The types of the accumulator and of the context, where a function takes these and a counter to
/// an end on the left or an accumulator on the right.
#[tactic(auto, using(crate::proofs::Sounds::first_of_three_sound))]
pub fn while_shape<'a>(
    f: &'a TypedFunction,
    name: &Mark,
) -> Result<(&'a HlType, &'a HlType), CheckRefusal>
    ensures sound { AreSound f.now.params → IfOk result (λ shape. IsSound shape.0.now × IsSound shape.1.now) }
    ensures answers { ChecksAs (λ shape. (shape.0.now, shape.1.now)) (while_types f.now name.now) result }
{
    if let [total, context, counter] = f.params.as_slice() {
        if is_counter(&counter.kind) && goes_on(&total.kind, &f.result) {
            return Ok((&total.kind, &context.kind));
        }
    }
    Err(CheckRefusal::Rule {
        rule: Rule::K14,
        span: name.span,
    })
}
