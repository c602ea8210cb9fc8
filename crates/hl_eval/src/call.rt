//! The call of a program's function with an argument and the values of witnesses.

ghost use Rattle.std.specs.Prelude.{IfOk};
ghost use Rattle.hl_meaning.specs.Mean.{meaning};
ghost use Rattle.hl_progress.specs.Calls.{FitsCall};
ghost use Rattle.hl_eval.specs.Bindings.{bindings_of};
ghost use Rattle.hl_eval.specs.Evaluated.{IsEvaluated, IsResultOf};

use crate::fault::EvalFault;
use crate::program::evaluate;
use crate::refusal::EvalRefusal;
use hl_data::{Entries, HlValue};
use hl_typed::TypedProgram;
use std::alloc::Global;

/// What a function of a program gives for an argument of its type: a value of the function's
/// result type. A function without parameters takes `()`, one with more than one a tuple; the
/// entries give `main` values of its witnesses. It is `Failed` exactly where the meaning fails.
pub fn eval(
    alloc: Global,
    program: &TypedProgram,
    function: &str,
    argument: &HlValue,
    witness: &Entries,
) -> Result<HlValue, EvalRefusal>
    requires fits { FitsCall program.now function.now argument.now (bindings_of witness.now) }
    ensures answer { IsEvaluated
        (meaning program.now.functions function.now (bindings_of witness.now) argument.now) result }
    ensures of_result { IfOk result (λ value. IsResultOf program.now function.now value) }
{
    program.breaks_nothing();
    match evaluate(
        alloc,
        program.functions().as_slice(),
        function,
        argument,
        witness,
    ) {
        Ok(value) => Ok(value),
        Err(EvalFault::Failed) => Err(EvalRefusal::Failed),
        Err(EvalFault::NoAnswer) => unreachable!(),
        Err(EvalFault::OutOfMemory) => Err(EvalRefusal::OutOfMemory),
    }
}
