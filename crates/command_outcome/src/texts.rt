//! The lines that are written.

ghost use Rattle.std.specs.Prelude.{◌≡◌, IfOk, string_bytes};
ghost use Rattle.command_outcome.specs.Refusals.{IsBroken, IsData, IsFailure, IsMisfit, IsPassed, IsRefusedAt, IsUnreadable};
ghost use Rattle.command_outcome.specs.Stops.{Stops};
ghost use Rattle.command_outcome.specs.Texts.{no_memory_line, value_line, write_line};

use crate::names::{DataCause, SourceCause, limit_name};
use crate::status::Status;
use crate::stop::Stop;
use hl_syntax::{Limit, Span};
use std::alloc::{AllocError, Global};

/// A word that doesn't fit.
pub fn refused_words(alloc: Global, index: usize) -> Stop
    ensures { Stops (IsMisfit index) result }
{
    match format!(in alloc; "words at {index}\n") {
        Ok(line) => Stop::Refused {
            status: Status::WordsRefused,
            line,
        },
        Err(_) => Stop::OutOfMemory,
    }
}

/// A file that isn't read.
pub fn unread_file(alloc: Global, file: &str) -> Stop
    ensures { Stops (IsUnreadable file.now) result }
{
    match format!(in alloc; "read {file}\n") {
        Ok(line) => Stop::Refused {
            status: Status::ReadFault,
            line,
        },
        Err(_) => Stop::OutOfMemory,
    }
}

/// A limit that is passed.
pub fn passed_limit(alloc: Global, limit: Limit) -> Stop
    ensures { Stops (IsPassed limit) result }
{
    let name = limit_name(limit);
    match format!(in alloc; "limit {name}\n") {
        Ok(line) => Stop::Refused {
            status: Status::LimitReached,
            line,
        },
        Err(_) => Stop::OutOfMemory,
    }
}

/// A source that is refused, from the byte at `start` up to that at `end`.
pub fn refused_source(alloc: Global, cause: SourceCause, start: u128, end: u128) -> Stop
    ensures { Stops (IsRefusedAt cause start end) result }
{
    let name = cause.name();
    match format!(in alloc; "source {name} at {start}..{end}\n") {
        Ok(line) => Stop::Refused {
            status: Status::SourceRefused,
            line,
        },
        Err(_) => Stop::OutOfMemory,
    }
}

/// A source that is refused at a span.
pub fn refused_span(alloc: Global, cause: SourceCause, span: Span) -> Stop
    ensures { Stops (IsBroken cause span) result }
{
    refused_source(alloc, cause, u128::from(span.start), u128::from(span.end))
}

/// What is wrong with an entry, a file or a word of this name.
pub fn refused_data(alloc: Global, cause: DataCause, name: &str) -> Stop
    ensures { Stops (IsData cause name.now) result }
{
    let kind = cause.name();
    match format!(in alloc; "data {kind} {name}\n") {
        Ok(line) => Stop::Refused {
            status: Status::DataRefused,
            line,
        },
        Err(_) => Stop::OutOfMemory,
    }
}

/// A program that fails.
pub fn failed_program(alloc: Global) -> Stop
    ensures { Stops IsFailure result }
{
    match String::from_str(alloc, "failed\n") {
        Ok(line) => Stop::Refused {
            status: Status::ProgramFailed,
            line,
        },
        Err(_) => Stop::OutOfMemory,
    }
}

/// The line of a printed value.
pub fn value_text(alloc: Global, text: &str) -> Result<String, AllocError>
    ensures { IfOk result (λ line. string_bytes line ≡ value_line text.now) }
{
    format!(in alloc; "value: {text}\n")
}

/// The line of a command that memory was short for.
pub fn no_memory_line() -> &'static [u8]
    ensures { result.now ≡ no_memory_line }
{
    b"no memory\n"
}

/// The line of a command whose text wasn't taken.
pub fn write_line() -> &'static [u8]
    ensures { result.now ≡ write_line }
{
    b"write\n"
}
