//! The line of the program of a small source.

ghost use Rattle.std.specs.Prelude.{◌≡◌, IfOk};
ghost use Rattle.command_outcome.specs.Stops.{GivesLine};
ghost use Rattle.top_call.specs.Built.{IsBuilt, IsBuiltOf};
ghost use Rattle.top_call.specs.Outcome.{IsBuildOutcome, IsSmallOutcome};
ghost use Rattle.small_source.specs.View.{small_of};
ghost use Rattle.small_terms.specs.Compiled.{IsModest};

use base64::engine::general_purpose::STANDARD;
use bit_codec::write_program;
use command_outcome::{SourceCause, Stop, read_program, refused_source};
use hl_syntax::Rule;
use small_source::{SmallFunction, SmallRefusal, read_small};
use small_terms::{BuildRefusal, build_small};
use std::alloc::{AllocError, Global};

/// What building gives.
#[derive(Drop)]
enum Built {
    /// The program in base64, and a line feed.
    Line(String),
    /// A name of the body is no parameter: the place of its first byte in the text, and how many bytes it has.
    UnknownName { start: usize, length: usize },
    /// The text is no small source for the asked name.
    NotSmall,
}

/// The line of a function of a source.
///
/// # Errors
///
/// The source is refused, or is no small source for the asked name, or a name is unknown.
pub fn build_source(alloc: Global, source: &[u8], function: &str) -> Result<String, Stop>
    ensures { GivesLine (IsBuildOutcome function.now source.now) result }
{
    read_program(alloc, source)?;
    build_program(alloc, source, function.as_bytes())
}

/// The line of a function of a source that is a program.
fn build_program(alloc: Global, source: &[u8], function: &[u8]) -> Result<String, Stop>
    ensures { GivesLine (IsSmallOutcome source.now function.now) result }
{
    match build(alloc, source, function)? {
        Built::Line(line) => Ok(line),
        Built::UnknownName { start, length } => {
            let start = start as u128;
            Err(refused_source(
                alloc,
                SourceCause::Broken(Rule::K4),
                start,
                start + length as u128,
            ))
        }
        Built::NotSmall => Err(refused_source(alloc, SourceCause::NotYet, 0, 0)),
    }
}

/// Builds a text for an asked name.
fn build(alloc: Global, text: &[u8], asked: &[u8]) -> Result<Built, AllocError>
    ensures { IfOk result (IsBuilt text.now asked.now) }
{
    match read_small(alloc, text, asked) {
        Ok(function) => build_function(alloc, &function),
        Err(SmallRefusal::NotSmall) => Ok(Built::NotSmall),
        Err(SmallRefusal::OutOfMemory) => Err(AllocError),
    }
}

/// The line of a function.
fn build_function(alloc: Global, function: &SmallFunction) -> Result<Built, AllocError>
    requires { IsModest (small_of function.now) }
    ensures { IfOk result (IsBuiltOf (small_of function.now)) }
{
    match build_small(alloc, function) {
        Ok(nodes) => {
            let program = write_program(alloc, &nodes)?;
            let mut line = STANDARD.encode(alloc, program.as_slice())?;
            line.push('\n')?;
            Ok(Built::Line(line))
        }
        Err(BuildRefusal::UnknownName { start, length }) => {
            Ok(Built::UnknownName { start, length })
        }
        Err(BuildRefusal::OutOfMemory) => Err(AllocError),
    }
}
