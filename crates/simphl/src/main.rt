//! A proved compiler from a profile of SimplicityHL to Simplicity bits.
#![tactic(auto)]

#[cfg(test)]
mod tests;

use outside::{HostFiles, StdSink};
use std::env;
use std::io::ErrorKind;
use std::process::ExitCode;
use top_call::{Status, simphl};

// The status where the system doesn't give the words as text.
const WORDS_ARE_NO_TEXT: u8 = 10;

fn main(rt: HostRuntime) -> ExitCode {
    let alloc = rt.alloc();
    let words: Vec<String> = match env::args(&rt) {
        Ok(args) => match args.skip(1).collect(alloc) {
            Ok(words) => words,
            Err(_) => return ExitCode::from(Status::NoMemory.number()),
        },
        Err(error) if error.kind() == ErrorKind::OutOfMemory => {
            return ExitCode::from(Status::NoMemory.number());
        }
        Err(_) => return ExitCode::from(WORDS_ARE_NO_TEXT),
    };
    let mut out = StdSink::output(&rt);
    let mut err = StdSink::errors(&rt);
    let mut files = HostFiles::new(rt);
    let status = simphl(alloc, words.as_slice(), &mut files, &mut out, &mut err);
    ExitCode::from(status.number())
}
