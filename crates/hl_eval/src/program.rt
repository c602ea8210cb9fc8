//! What the function of a name gives.

ghost use Rattle.hl_meaning.specs.Mean.{meaning};
ghost use Rattle.hl_eval.specs.Bindings.{bindings_of};
ghost use Rattle.hl_eval.specs.Outcome.{AnswersMeaning};

use crate::evaluator::Evaluator;
use crate::fault::EvalFault;
use crate::values::argument_parts;
use hl_data::{Entries, HlValue, TypedFunction};
use jet_table::profile;
use std::alloc::Global;

/// What the function of a name gives for an argument: `()` for no parameter, the value itself for
/// one, a tuple for more. Each function sees those before it; the entries are the values of the
/// witnesses.
///
/// It is `Failed` exactly where the meaning fails, and `NoAnswer` exactly where a name has no value
/// or a value has another shape than the construct needs.
pub fn evaluate(
    alloc: Global,
    functions: &[TypedFunction],
    name: &str,
    argument: &HlValue,
    witness: &Entries,
) -> Result<HlValue, EvalFault>
    ensures { AnswersMeaning (meaning functions.now name.now (bindings_of witness.now) argument.now) result }
{
    let jets = profile();
    let evaluator = Evaluator {
        alloc,
        jets: &jets,
        functions,
        witness: witness.as_slice(),
    };
    let place = evaluator.place_named(name)?;
    let arguments = argument_parts(alloc, &functions[place].params, argument)?;
    evaluator.run(place, arguments)
}
