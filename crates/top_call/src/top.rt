//! The top call.

ghost use Rattle.std.specs.Prelude.{◌≡◌, ◌≤◌};
ghost use Rattle.top_call.specs.Answer.{IsAllowed, IsAnswer, HasRead};
ghost use Rattle.top_call.specs.Answered.{IsPut, IsDelivered};
ghost use Rattle.command_words.specs.Words.{reading, texts};

use crate::outcome::compose;
use command_outcome::{Status, Stop, no_memory_line, write_line};
use outside::{Files, Sink, SinkFailed};
use std::alloc::Global;

/// Runs a command: reads the files that its words name, composes its text, and writes it to `out`, or why not to `err`.
///
/// The clause `answer` says what each answer means, what caused it and how many files were read for it.
pub fn simphl<F: Files, O: Sink, E: Sink>(
    alloc: Global,
    words: &[String],
    files: &mut F,
    out: &mut O,
    err: &mut E,
) -> Status
    ensures held { (F.state files.new).held ≡ (F.state files.old).held }
    ensures reads { HasRead (reading (texts words.now)) (F.state files.old) (F.state files.new) }
    ensures never_fall { (F.state files.old).faults ≤ (F.state files.new).faults }
    ensures answer { IsAnswer (IsAllowed (reading (texts words.now)) (F.state files.old) (F.state files.new)) result
        (O.state out.old) (O.state out.new) (E.state err.old) (E.state err.new) }
{
    match compose(alloc, words, files) {
        Ok(text) => deliver(out, err, text.as_bytes()),
        Err(Stop::Refused { status, line }) => refuse(err, status, line.as_bytes()),
        Err(Stop::OutOfMemory) => refuse(err, Status::NoMemory, no_memory_line()),
    }
}

/// Puts a text on `out`.
fn deliver<O: Sink, E: Sink>(out: &mut O, err: &mut E, text: &[u8]) -> Status
    ensures { IsDelivered (O.state out.old) (O.state out.new) (E.state err.old) (E.state err.new) text.now result }
{
    match out.put(text) {
        Ok(()) => Status::Done,
        Err(SinkFailed) => {
            let _ = err.put(write_line());
            Status::WriteFault
        }
    }
}

/// Puts why there is no text on `err`.
fn refuse<E: Sink>(err: &mut E, status: Status, text: &[u8]) -> Status
    ensures { IsPut status (E.state err.old) (E.state err.new) text.now result }
{
    match err.put(text) {
        Ok(()) => status,
        Err(SinkFailed) => Status::WriteFault,
    }
}
