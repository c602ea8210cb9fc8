//! Files by their names and limits, and reading them.

ghost use Rattle.std.specs.Prelude.{◌≡◌, ◌≤◌, map};
ghost use Rattle.outside.specs.Counts.{raised};
ghost use Rattle.command_files.specs.Files.{data_file, source_file};
ghost use Rattle.command_files.specs.Reads.{AreReadFrom, HasReadOf, IsFileFrom, file_of};

use command_outcome::{Stop, passed_limit, unread_file};
use hl_syntax::Limit;
use outside::{FileRefusal, Files};
use std::alloc::Global;

/// The greatest source, in bytes.
const MOST_SOURCE: u64 = 262_144;

/// The greatest data file, in bytes.
const MOST_DATA: u64 = 1_048_576;

/// A file that is read: its name, and how many bytes it may have, which a limit says.
#[derive(Clone, Copy, Debug)]
pub struct NamedFile<'a> {
    name: &'a str,
    most: u64,
    limit: Limit,
}

impl<'a> NamedFile<'a> {
    /// The file of a source.
    pub fn source(name: &'a str) -> NamedFile<'a>
        ensures { file_of result ≡ source_file name.entry.now }
    {
        NamedFile {
            name,
            most: MOST_SOURCE,
            limit: Limit::L1,
        }
    }

    /// A data file.
    pub fn data(name: &'a str) -> NamedFile<'a>
        ensures { file_of result ≡ data_file name.entry.now }
    {
        NamedFile {
            name,
            most: MOST_DATA,
            limit: Limit::L10,
        }
    }
}

/// Reads a file.
fn read_file<F: Files>(alloc: Global, files: &mut F, file: NamedFile<'_>) -> Result<Vec<u8>, Stop>
    ensures held { (F.state files.new).held ≡ (F.state files.old).held }
    ensures reads { (F.state files.new).reads ≡ raised (F.state files.old).reads }
    ensures never_fall { (F.state files.old).faults ≤ (F.state files.new).faults }
    ensures file { IsFileFrom (F.state files.old) (F.state files.new) (file_of file.entry) result }
{
    match files.read(alloc, file.name, file.most) {
        Ok(bytes) => Ok(bytes),
        Err(FileRefusal::NotHeld) => Err(unread_file(alloc, file.name)),
        Err(FileRefusal::Failed) => Err(unread_file(alloc, file.name)),
        Err(FileRefusal::TooLong) => Err(passed_limit(alloc, file.limit)),
        Err(FileRefusal::OutOfMemory) => Err(Stop::OutOfMemory),
    }
}

/// Reads files one after the other, up to the first that isn't read.
pub fn read_files<F: Files>(
    alloc: Global,
    files: &mut F,
    named: &[NamedFile<'_>],
) -> Result<Vec<Vec<u8>>, Stop>
    ensures held { (F.state files.new).held ≡ (F.state files.old).held }
    ensures reads { HasReadOf (map file_of named.now) (F.state files.old) (F.state files.new) }
    ensures never_fall { (F.state files.old).faults ≤ (F.state files.new).faults }
    ensures read { AreReadFrom (F.state files.old) (F.state files.new) (map file_of named.now) result }
{
    let mut found = Vec::new(alloc);
    'named: for file in named {
        let bytes = read_file(alloc, files, *file)?;
        found.push(bytes)?;
    }
    Ok(found)
}
