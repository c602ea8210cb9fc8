//! What a command answers, before it is written.

ghost use Rattle.std.specs.Prelude.{◌≡◌, ◌≤◌, ◌<◌, ◌∷◌, IfOk, length, map};
ghost use Rattle.command_outcome.specs.Stops.{GivesLine};
ghost use Rattle.command_words.specs.Asked.{evaluation_of, reading_of};
ghost use Rattle.command_words.specs.Words.{reading, texts};
ghost use Rattle.top_call.specs.Answer.{HasRead, IsAllowed};
ghost use Rattle.command_files.specs.Reads.{file_of, texts_of};
ghost use Rattle.top_call.specs.Outcome.{files_of, AfterFiles, EvalOutcomeIsOne, IsEvalOutcome, OutcomeIsOne};

use crate::build::build_source;
use checked_source::AskedSource;
use command_files::{NamedFile, next_named, read_files};
use command_outcome::{Stop, refused_words};
use command_words::{Asked, EvalWords, read_words};
use eval_command::{GivenWords, evaluate_source, one_evaluation_law};
use hl_grammar::{one_program_law, program_fronts_law};
use outside::Files;
use std::alloc::{AllocError, Global};

/// The text of a command for `out`, or why there is none.
pub fn compose<F: Files>(alloc: Global, words: &[String], files: &mut F) -> Result<String, Stop>
    ensures held { (F.state files.new).held ≡ (F.state files.old).held }
    ensures reads { HasRead (reading (texts words.now)) (F.state files.old) (F.state files.new) }
    ensures never_fall { (F.state files.old).faults ≤ (F.state files.new).faults }
    ensures allowed { GivesLine (IsAllowed (reading (texts words.now)) (F.state files.old) (F.state files.new)) result }
{
    compose_asked(alloc, read_words(words), files)
}

/// The text of what is asked for: the files are read in their order, and then it is answered.
fn compose_asked<F: Files>(alloc: Global, asked: Asked<'_>, files: &mut F) -> Result<String, Stop>
    ensures held { (F.state files.new).held ≡ (F.state files.old).held }
    ensures reads { HasRead (reading_of asked.entry) (F.state files.old) (F.state files.new) }
    ensures never_fall { (F.state files.old).faults ≤ (F.state files.new).faults }
    ensures allowed { GivesLine (IsAllowed (reading_of asked.entry) (F.state files.old) (F.state files.new)) result }
{
    let Ok(named) = named_files(alloc, asked) else {
        return Err(Stop::OutOfMemory);
    };
    match read_files(alloc, files, named.as_slice()) {
        Ok(found) => answer(alloc, asked, found.as_slice()),
        Err(stop) => Err(stop),
    }
}

/// The files that are named, in the order in which they are read.
fn named_files<'a>(alloc: Global, asked: Asked<'a>) -> Result<Vec<NamedFile<'a>>, AllocError>
    ensures { IfOk result (λ named. map file_of named.items ≡ files_of (reading_of asked.entry)) }
{
    let mut named = Vec::new(alloc);
    match asked {
        Asked::Build { file, .. } => named.push(NamedFile::source(file))?,
        Asked::Eval(asked) => {
            named.push(NamedFile::source(asked.file))?;
            if let Some(args) = asked.args {
                named.push(NamedFile::data(args))?;
            }
            if let Some(witness) = asked.witness {
                named.push(NamedFile::data(witness))?;
            }
        }
        Asked::Misfit(_) => (),
    }
    Ok(named)
}

/// The text of what is asked for, from the bytes of the files that are named.
fn answer(alloc: Global, asked: Asked<'_>, found: &[Vec<u8>]) -> Result<String, Stop>
    requires { length found.now ≡ length (files_of (reading_of asked)) }
    ensures { GivesLine (AfterFiles (reading_of asked.entry) (texts_of found.now)) result }
{
    match asked {
        Asked::Build { function, .. } => {
            let (source, _) = source_in(found);
            build_source(alloc, source, function)
        }
        Asked::Eval(asked) => {
            let (source, rest) = source_in(found);
            evaluate(alloc, asked, source, rest)
        }
        Asked::Misfit(index) => Err(refused_words(alloc, index)),
    }
}

/// The bytes of the source, which is read first, and the files after it.
fn source_in(found: &[Vec<u8>]) -> (&[u8], &[Vec<u8>])
    requires { 0 < length found.now }
    ensures { texts_of found.entry.now ≡ result.0.now ∷ texts_of result.1.now }
{
    let Some((source, rest)) = found.split_first() else {
        unreachable!();
    };
    (source.as_slice(), rest)
}

/// Evaluates a function of a source, with the bytes of the data files that are named.
fn evaluate(
    alloc: Global,
    asked: EvalWords<'_>,
    source: &[u8],
    found: &[Vec<u8>],
) -> Result<String, Stop>
    ensures { GivesLine (IsEvalOutcome (evaluation_of asked.entry) source.now (texts_of found.now)) result }
{
    let (args, rest) = next_named(asked.args, found);
    let (witness, _) = next_named(asked.witness, rest);
    let given = GivenWords {
        asked: AskedSource {
            function: asked.function,
            edition: asked.edition.number(),
            args,
        },
        witness,
        input: asked.input,
    };
    evaluate_source(alloc, source, given)
}

/// The law that an outcome is one: its status, and its text for standard error; of an evaluation its
/// text for standard output too.
pub fn one_outcome()
    ensures outcome { OutcomeIsOne }
    ensures evaluation { EvalOutcomeIsOne }
{
    one_program_law();
    program_fronts_law();
    one_evaluation_law();
}
