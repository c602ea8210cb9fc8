// The files of the system. Nothing is told of them.
ghost use Rattle.std.specs.Prelude.{◌≡◌, ◌+◌, ◌<◌, ◌≤◌, None, IfOk, OnOk, vec_len};
ghost use Rattle.std.specs.Io.KnownBytes.{IsAtEnd};
ghost use Rattle.outside.specs.Counts.{raised, HasRisen};
ghost use Rattle.outside.specs.Files.{OnNotHeld, OnTooLong, OnFailed, UnlessFailed};
ghost use Rattle.outside.specs.Streams.{IsAllOf, IsMoreThan, Moves};

use crate::opener::Opener;
use crate::{FileRefusal, Files};
use std::alloc::Global;
use std::io::Read;

/// The files of a runtime, by their paths. A missing file is a fault.
#[derive(Drop)]
pub struct HostFiles<R> {
    opener: R,
    reads: u64,
    faults: u64,
}

impl<R: Opener> HostFiles<R> {
    ghost use Rattle.outside.specs.HostFiles.{opener_of, read_count, fault_count};

    pub fn new(opener: R) -> Self
        ensures opener { opener_of result ≡ opener }
        ensures reads { read_count result ≡ 0 }
        ensures faults { fault_count result ≡ 0 }
    {
        HostFiles {
            opener,
            reads: 0,
            faults: 0,
        }
    }
}

// Adds at most `most` bytes, from where the file is read next, and says how many there were.
fn read_some<F: Read>(file: &mut F, bytes: &mut Vec<u8>, most: usize) -> Result<usize, FileRefusal>
    requires { most ≤ 4096 }
    ensures length { IfOk result (λ count. vec_len bytes.new ≡ vec_len bytes.old + count) }
    ensures bound { IfOk result (λ count. count ≤ most) }
    ensures whole { OnOk result (Moves F.remaining file.old file.new bytes.old.items bytes.new.items) }
    ensures end { result ≡ Ok 0 → 0 < most → IsAtEnd (F.remaining file.new) }
    ensures not_held { OnNotHeld result ⊥ }
    ensures too_long { OnTooLong result ⊥ }
{
    let mut buffer = [0u8; 4096];
    let Ok(count) = file.read(&mut buffer[..most]) else {
        return Err(FileRefusal::Failed);
    };
    match bytes.extend_from_slice(&buffer[..count]) {
        Ok(()) => Ok(count),
        Err(_) => Err(FileRefusal::OutOfMemory),
    }
}

// The rest of a file, of which it reads at most one byte more than the limit.
fn read_rest<F: Read>(alloc: Global, file: &mut F, limit: u64) -> Result<Vec<u8>, FileRefusal>
    ensures bytes { IfOk result (λ bytes. IsAllOf (F.remaining file.old) bytes.items) }
    ensures within { IfOk result (λ bytes. vec_len bytes ≤ limit) }
    ensures too_long { OnTooLong result (IsMoreThan limit (F.remaining file.old)) }
    ensures not_held { OnNotHeld result ⊥ }
{
    let mut bytes = Vec::new(alloc);
    'parts: for _part in 0..u64::MAX {
        let left = limit - bytes.len() as u64;
        let most = left.min(4095) as usize + 1;
        if read_some(file, &mut bytes, most)? == 0 {
            return Ok(bytes);
        }
        if bytes.len() as u64 > limit {
            return Err(FileRefusal::TooLong);
        }
    }
    Err(FileRefusal::Failed)
}

// The whole file of a name, as the name stands.
fn read_named<R: Opener>(
    alloc: Global,
    opener: &R,
    name: &str,
    limit: u64,
) -> Result<Vec<u8>, FileRefusal>
    ensures bytes { IfOk result (λ bytes. IsAllOf (R.told opener.now name.now) bytes.items) }
    ensures within { IfOk result (λ bytes. vec_len bytes ≤ limit) }
    ensures too_long { OnTooLong result (IsMoreThan limit (R.told opener.now name.now)) }
    ensures not_held { OnNotHeld result ⊥ }
{
    match opener.open(name) {
        Ok(mut file) => read_rest(alloc, &mut file, limit),
        // What the system says of a file that it doesn't open is no part of the answer.
        Err(_) => Err(FileRefusal::Failed),
    }
}

impl<R: Opener> Files for HostFiles<R> {
    ghost use Rattle.outside.specs.HostFiles.{opener_of, read_count, fault_count, state_of};

    ghost state = { state_of };

    /// Over an opener that tells what its files give, as the system's doesn't, the answer is what is told.
    fn read(&mut self, alloc: Global, name: &str, limit: u64) -> Result<Vec<u8>, FileRefusal>
        ensures opener { opener_of self.new ≡ opener_of self.old }
        ensures reads { read_count self.new ≡ raised (read_count self.old) }

        ensures fault { OnFailed result (fault_count self.new ≡ raised (fault_count self.old)) }
        ensures no_fault { UnlessFailed result (fault_count self.new ≡ fault_count self.old) }
        ensures rises { OnFailed result (HasRisen (fault_count self.old) (fault_count self.new)) }
        ensures never_fall { fault_count self.old ≤ fault_count self.new }

        ensures bytes { IfOk result (λ file. IsAllOf (R.told (opener_of self.old) name.now) file.items) }
        ensures within { IfOk result (λ file. vec_len file ≤ limit) }
        ensures too_long { OnTooLong result (IsMoreThan limit (R.told (opener_of self.old) name.now)) }
        ensures not_held { OnNotHeld result ⊥ }
    {
        self.reads = self.reads.saturating_add(1);
        let answer = read_named(alloc, &self.opener, name, limit);
        if let Err(FileRefusal::Failed) = answer {
            self.faults = self.faults.saturating_add(1);
        }
        answer
    }
}

#[cfg(test)]
mod tests {
    use super::*;
    use std::test::Fail;
    use std::{fs, io};

    const PATH: &str = "outside-host-files-test";

    const BLANKS: &str = " outside host files test ";

    // The greatest source of a program, in bytes.
    const MANY: usize = 262_144;

    #[test]
    fn reads_a_file(rt: HostRuntime) -> Result<(), Fail> {
        let alloc = rt.alloc();
        fs::write(&rt, PATH, vec![in alloc; 7u8; MANY]?.as_slice())?;
        fs::write(&rt, BLANKS, b"blanks")?;
        fs::write(&rt, "outside", b"none")?;
        let mut files = HostFiles::new(&rt);
        let rows = [
            (PATH, MANY, Ok(MANY)),
            (PATH, MANY - 1, Err(FileRefusal::TooLong)),
            (BLANKS, 6, Ok(6)),
            ("outside", 6, Ok(4)),
        ];
        for (name, limit, want) in rows {
            let answer = files
                .read(alloc, name, limit as u64)
                .map(|bytes| bytes.len());
            assert_eq!(rt; answer, want, "{name} within {limit}");
        }
        fs::remove_file(&rt, PATH)?;
        fs::remove_file(&rt, BLANKS)?;
        fs::remove_file(&rt, "outside")?;
        let gone = files.read(alloc, PATH, 5000).map(|bytes| bytes.len());
        assert_eq!(rt; gone, Err(FileRefusal::Failed));
        assert_eq!(rt; (files.reads, files.faults), (5, 1));
        Ok(())
    }

    // Opens a file that gives one byte and then fails.
    #[derive(Drop)]
    struct Broken;

    #[derive(Drop)]
    struct BrokenFile {
        is_read: bool,
    }

    impl Opener for Broken {
        type Opened = BrokenFile;

        ghost told = { λ _ _. None };

        fn open(&self, _name: &str) -> io::Result<BrokenFile> {
            Ok(BrokenFile { is_read: false })
        }
    }

    impl Read for BrokenFile {
        fn read(&mut self, buffer: &mut [u8]) -> io::Result<usize> {
            if self.is_read || buffer.is_empty() {
                return Err(io::Error::from(io::ErrorKind::Other));
            }
            self.is_read = true;
            buffer[0] = 7;
            Ok(1)
        }
    }

    #[test]
    fn counts_a_fault_within_a_file(rt: HostRuntime) -> Result<(), Fail> {
        let mut files = HostFiles::new(Broken);
        for faults in 1..3u64 {
            let answer = files.read(rt.alloc(), PATH, 9).map(|bytes| bytes.len());
            assert_eq!(rt; answer, Err(FileRefusal::Failed));
            assert_eq!(rt; (files.reads, files.faults), (faults, faults));
        }
        Ok(())
    }
}
