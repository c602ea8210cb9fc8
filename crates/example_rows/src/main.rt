//! Runs each row of `data/rows.tsv`, the examples, and prints its words, its status and what it writes.
#![tactic(auto)]

use outside::{FileRefusal, Files, HostFiles, MemorySink, Sink, StdSink};
use std::alloc::{AllocError, Global};
use std::process::ExitCode;
use top_call::simphl;

/// The greatest table of rows, and the most that a command writes, in bytes.
const MOST_TABLE: u64 = 65_536;

const ROOM: usize = 4_096;

/// Why the rows weren't run to their end.
#[derive(Debug, Drop)]
enum Stopped {
    NoTable,
    NotShown,
    OutOfMemory,
}

impl From<AllocError> for Stopped {
    fn from(_error: AllocError) -> Self {
        Stopped::OutOfMemory
    }
}

fn main(rt: HostRuntime) -> ExitCode {
    let alloc = rt.alloc();
    let mut shown = StdSink::output(&rt);
    let mut files = HostFiles::new(rt);
    match show_rows(alloc, &mut files, &mut shown) {
        Ok(()) => ExitCode::SUCCESS,
        Err(_) => ExitCode::FAILURE,
    }
}

/// Runs the rows of the table, of which the words stand before the first tab of a line.
fn show_rows<F: Files, S: Sink>(
    alloc: Global,
    files: &mut F,
    shown: &mut S,
) -> Result<(), Stopped> {
    let bytes = match files.read(alloc, "rows.tsv", MOST_TABLE) {
        Ok(bytes) => bytes,
        Err(FileRefusal::OutOfMemory) => return Err(Stopped::OutOfMemory),
        Err(_) => return Err(Stopped::NoTable),
    };
    let Ok(table) = std::str::from_utf8(bytes.as_slice()) else {
        return Err(Stopped::NoTable);
    };
    for line in table.lines() {
        if let Some((words, _)) = line.split_once('\t') {
            if !words.starts_with('#') {
                show_row(alloc, words, files, shown)?;
            }
        }
    }
    Ok(())
}

/// Runs one command, and shows its words, its status, and what it wrote to both outputs.
fn show_row<F: Files, S: Sink>(
    alloc: Global,
    line: &str,
    files: &mut F,
    shown: &mut S,
) -> Result<(), Stopped> {
    let mut words = Vec::new(alloc);
    for word in line.split(' ') {
        words
            .push(String::from_str(alloc, word)?)
            .map_err(AllocError::from)?;
    }
    let mut out = MemorySink::new(alloc, ROOM)?;
    let mut err = MemorySink::new(alloc, ROOM)?;
    let status = simphl(alloc, words.as_slice(), files, &mut out, &mut err);
    let ended = format!(in alloc; "$ simphl {line}\nstatus {}\n", status.number())?;
    for piece in [ended.as_bytes(), out.bytes(), err.bytes()] {
        if shown.put(piece).is_err() {
            return Err(Stopped::NotShown);
        }
    }
    Ok(())
}
