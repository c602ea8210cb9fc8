//! Evaluations, step by step.

ghost use Rattle.std.specs.Prelude.{◌≡◌, IsTrue};
ghost use Rattle.std.specs.List.{All};
ghost use Rattle.std.specs.Option.{option_copied};
ghost use Rattle.hl_progress.specs.Calls.{FitsCall, function_of};
ghost use Rattle.hl_progress.specs.Held.{HasValue};
ghost use Rattle.hl_eval.specs.Bindings.{bindings_of};
ghost use Rattle.hl_meaning.specs.Mean.{meaning};
ghost use Rattle.hl_rules.specs.Declared.{has_function};
ghost use Rattle.hl_rules.specs.Places.{is_main};
ghost use Rattle.hl_typed.specs.Typed.{IsEdition};
ghost use Rattle.command_outcome.specs.Stops.{GivesLine};
ghost use Rattle.eval_command.specs.Evaluation.{AfterMeaning, FromArgument, FromWitnesses, IsEvaluation};
ghost use Rattle.eval_command.specs.Parts.{given_of};

use crate::argument::{argument_type, read_argument};
use checked_source::{AskedSource, check_source, witness_entries};
use command_outcome::{Stop, failed_program, value_text};
use hl_data::{Entries, HlValue, TypedFunction};
use hl_eval::{EvalRefusal, eval};
use hl_typed::TypedProgram;
use hl_typing::typed_programs_are_typed;
use hl_values::print_value;
use std::alloc::Global;

/// What an evaluation is given beside its source.
#[derive(Clone, Copy, Debug)]
pub struct GivenWords<'a> {
    /// What is asked of the source: the function, the edition and the parameters' entries.
    pub asked: AskedSource<'a>,
    /// The bytes of the file of the witnesses' entries.
    pub witness: Option<&'a [u8]>,
    /// The text of the argument's value.
    pub input: Option<&'a str>,
}

/// The line of the value that a function of a source gives.
///
/// # Errors
///
/// The first refusal in the order: the source, the parameters' entries, the rules, the witnesses'
/// entries, the argument, failure.
pub fn evaluate_source(alloc: Global, source: &[u8], given: GivenWords<'_>) -> Result<String, Stop>
    requires { IsEdition given.asked.edition }
    ensures { GivesLine (IsEvaluation (given_of given.entry) source.now) result }
{
    match check_source(alloc, source, given.asked) {
        Ok(program) => from_witnesses(alloc, &program, given),
        Err(stop) => Err(stop),
    }
}

/// The steps from the witnesses' entries on, of a program that has the function.
fn from_witnesses(
    alloc: Global,
    program: &TypedProgram,
    given: GivenWords<'_>,
) -> Result<String, Stop>
    requires { IsTrue (has_function program.now.functions given.asked.function.now) }
    ensures { GivesLine (FromWitnesses (given_of given.entry) program.now) result }
{
    typed_programs_are_typed(program);
    match witness_entries(alloc, given.witness, given.asked.function, program) {
        Ok(witness) => from_argument(alloc, program, &witness, given),
        Err(stop) => Err(stop),
    }
}

/// The steps from the argument on, of a program that has the function, whose witnesses have values
/// where it is `main`.
fn from_argument(
    alloc: Global,
    program: &TypedProgram,
    witness: &Entries,
    given: GivenWords<'_>,
) -> Result<String, Stop>
    requires there { IsTrue (has_function program.now.functions given.asked.function.now) }
    requires valued { IsTrue (is_main given.asked.function.now)
        → All (HasValue (bindings_of witness.now)) program.now.witnesses }
    ensures { GivesLine (FromArgument (given_of given.entry) program.now witness.now) result }
{
    typed_programs_are_typed(program);
    let functions = program.functions().as_slice();
    let Some(function) = function_named(functions, given.asked.function) else {
        unreachable!();
    };
    let kind = argument_type(alloc, function.params.as_slice())?;
    match read_argument(alloc, &kind, given.input) {
        Ok(argument) => from_call(alloc, program, given.asked.function, witness, &argument),
        Err(stop) => Err(stop),
    }
}

/// The function of a name.
fn function_named<'a>(functions: &'a [TypedFunction], name: &str) -> Option<&'a TypedFunction>
    ensures { option_copied result ≡ function_of functions.now name.now }
{
    'functions: for one in functions {
        if name == one.name.as_str() {
            return Some(one);
        }
    }
    None
}

/// The value of the function as a line, or that it fails, for an argument of its type.
fn from_call(
    alloc: Global,
    program: &TypedProgram,
    name: &str,
    witness: &Entries,
    argument: &HlValue,
) -> Result<String, Stop>
    requires { FitsCall program.now name.now argument.now (bindings_of witness.now) }
    ensures { GivesLine (AfterMeaning
        (meaning program.now.functions name.now (bindings_of witness.now) argument.now)) result }
{
    match eval(alloc, program, name, argument, witness) {
        Ok(value) => {
            let text = print_value(alloc, &value)?;
            Ok(value_text(alloc, text.as_str())?)
        }
        Err(EvalRefusal::Failed) => Err(failed_program(alloc)),
        Err(EvalRefusal::OutOfMemory) => Err(Stop::OutOfMemory),
    }
}
