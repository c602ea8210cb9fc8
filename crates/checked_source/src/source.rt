//! From the bytes of a source and of the file of the parameters' entries to a typed program.

ghost use Rattle.std.specs.Prelude.{IfOk, IsTrue};
ghost use Rattle.hl_meaning.specs.Entries.{AreValued};
ghost use Rattle.hl_rules.specs.Declared.{has_function};
ghost use Rattle.hl_typed.specs.Typed.{IsEdition};
ghost use Rattle.command_outcome.specs.Leads.{Leads};
ghost use Rattle.checked_source.specs.Parts.{asking_of};
ghost use Rattle.checked_source.specs.Steps.{FromArgs, FromRules, IsCheckedSource};

use crate::object::object_in;
use crate::refusals::{refused_args, refused_program};
use command_outcome::{Stop, read_program};
use hl_check::check;
use hl_data::Entries;
use hl_files::{param_names, read_entries};
use hl_syntax::Program;
use hl_typed::TypedProgram;
use std::alloc::Global;

/// What is asked of a source.
#[derive(Clone, Copy, Debug)]
pub struct AskedSource<'a> {
    /// The name of the function.
    pub function: &'a str,
    /// The edition of the language, 1 or 2.
    pub edition: u8,
    /// The bytes of the file of the parameters' entries.
    pub args: Option<&'a [u8]>,
}

/// The typed program of a source, which has the function that is asked for.
///
/// # Errors
///
/// The first refusal in the order: the source, the parameters' entries, the rules and limits.
pub fn check_source(
    alloc: Global,
    source: &[u8],
    asked: AskedSource<'_>,
) -> Result<TypedProgram, Stop>
    requires { IsEdition asked.edition }
    ensures checked { Leads (IsCheckedSource (asking_of asked.entry) source.now) result }
    ensures there { IfOk result (λ program. IsTrue (has_function program.functions asked.entry.function.now)) }
{
    match read_program(alloc, source) {
        Ok(program) => check_tree(alloc, &program, source.len() as u64, asked),
        Err(stop) => Err(stop),
    }
}

/// The steps from the parameters' entries on, of a source that ends there.
fn check_tree(
    alloc: Global,
    program: &Program,
    end: u64,
    asked: AskedSource<'_>,
) -> Result<TypedProgram, Stop>
    requires { IsEdition asked.edition }
    ensures checked { Leads (FromArgs (asking_of asked.entry) end program.now) result }
    ensures there { IfOk result (λ program. IsTrue (has_function program.functions asked.entry.function.now)) }
{
    let names = param_names(alloc, program)?;
    match read_entries(alloc, object_in(asked.args), &names) {
        Ok(params) => check_rules(alloc, program, &params, end, asked),
        Err(refusal) => Err(refused_args(alloc, refusal)),
    }
}

/// The rules and limits.
fn check_rules(
    alloc: Global,
    program: &Program,
    params: &Entries,
    end: u64,
    asked: AskedSource<'_>,
) -> Result<TypedProgram, Stop>
    requires edition { IsEdition asked.edition }
    requires valued { AreValued params.now }
    ensures checked { Leads (FromRules (asking_of asked.entry) end program.now params.now) result }
    ensures there { IfOk result (λ program. IsTrue (has_function program.functions asked.entry.function.now)) }
{
    match check(alloc, program, asked.function, params, asked.edition, end) {
        Ok(typed) => Ok(typed),
        Err(refusal) => Err(refused_program(alloc, refusal)),
    }
}
