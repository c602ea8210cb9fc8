//! From the file of the witnesses' entries to entries of the types that a program wants.

ghost use Rattle.std.specs.Prelude.{◌≡◌, [], map, IfOk, IfSome};
ghost use Rattle.std.specs.Option.{option_copied};
ghost use Rattle.hl_files.specs.Reads.{typed_name};
ghost use Rattle.hl_meaning.specs.Entries.{AreValued};
ghost use Rattle.command_outcome.specs.Leads.{Leads};
ghost use Rattle.checked_source.specs.Steps.{IsGivenWitnesses, IsWitnesses, object_of, wanted};

use crate::object::object_in;
use crate::refusals::refused_witnesses;
use command_outcome::Stop;
use hl_data::Entries;
use hl_files::read_wanted;
use hl_syntax::Wanted;
use hl_typed::TypedProgram;
use std::alloc::Global;

/// The entries of the witnesses of a function of a program, of which `main` alone has any, in the
/// program's order. A file that isn't given counts as an object without entries.
///
/// # Errors
///
/// The first refusal of the file: it is no JSON, or at the first witness at fault that it has no
/// entry, a bad one, one of another type or one with a bad value.
pub fn witness_entries(
    alloc: Global,
    file: Option<&[u8]>,
    function: &str,
    program: &TypedProgram,
) -> Result<Entries, Stop>
    ensures read { Leads (IsWitnesses (object_of (option_copied file.entry)) (wanted function.now program.now)) result }
    ensures valued { IfOk result AreValued }
    ensures wanted { IfOk result (λ entries. map typed_name entries ≡ wanted function.now program.now) }
{
    entries_in(alloc, object_in(file), function, program)
}

/// The same of a file that is given, and nothing where none is.
pub fn given_entries(
    alloc: Global,
    file: Option<&[u8]>,
    function: &str,
    program: &TypedProgram,
) -> Result<Option<Entries>, Stop>
    ensures read { Leads (IsGivenWitnesses (option_copied file.entry) (wanted function.now program.now)) result }
    ensures valued { IfOk result (λ found. IfSome found AreValued) }
    ensures wanted { IfOk result
        (λ found. IfSome found (λ entries. map typed_name entries ≡ wanted function.now program.now)) }
{
    match file {
        Some(bytes) => match entries_in(alloc, bytes, function, program) {
            Ok(entries) => Ok(Some(entries)),
            Err(stop) => Err(stop),
        },
        None => Ok(None),
    }
}

/// The entries of the witnesses in a file.
fn entries_in(
    alloc: Global,
    file: &[u8],
    function: &str,
    program: &TypedProgram,
) -> Result<Entries, Stop>
    ensures read { Leads (IsWitnesses file.now (wanted function.now program.now)) result }
    ensures valued { IfOk result AreValued }
    ensures wanted { IfOk result (λ entries. map typed_name entries ≡ wanted function.now program.now) }
{
    let none = Wanted::new(alloc);
    match read_wanted(alloc, file, wanted_in(function, program, &none)) {
        Ok(entries) => Ok(entries),
        Err(refusal) => Err(refused_witnesses(alloc, refusal)),
    }
}

/// The witnesses of a function, of which `main` alone has any; there is none in `none`.
fn wanted_in<'a>(function: &str, program: &'a TypedProgram, none: &'a Wanted) -> &'a Wanted
    requires { none.now ≡ [] }
    ensures { result.now ≡ wanted function.now program.now }
{
    if function == "main" {
        program.witnesses()
    } else {
        none
    }
}
