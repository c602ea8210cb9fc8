// Files in memory, which tell what they hold.
ghost use Rattle.std.specs.Prelude.{◌≡◌, ◌≢◌, ℕ, ◌+◌, ◌<◌, ◌≤◌, ◌↔◌, List, [], ◌∷◌, ◌++◌, length, find, Contains, Option, None, Some, IfOk, IfSome, IsErrOf, IsSomeAnd, OnOk, OnErr, option_copied, option_map, vec_len, position};
ghost use Rattle.outside.specs.Counts.{raised, HasRisen};
ghost use Rattle.outside.specs.MemoryFiles.{has_name, bytes_in, HoldsAt};
ghost use Rattle.outside.specs.Files.{IsAbsent, IsLonger, HasBytes, OnNotHeld, OnTooLong, OnFailed, UnlessFailed, IsRefusedAs};

use crate::{FileRefusal, Files};
use std::alloc::{AllocError, Global};

// A file and its name.
#[derive(Drop)]
struct HeldFile {
    name: String,
    bytes: Vec<u8>,
}

/// Files in memory. A call of `read` fails where its number, from 1 on, was given to `fail_at`.
/// The number of a call is the count of calls after it.
#[derive(Drop)]
pub struct MemoryFiles {
    alloc: Global,
    files: Vec<HeldFile>,
    failing: Vec<u64>,
    faults: u64,
    reads: u64,
}

impl MemoryFiles {
    ghost use Rattle.outside.specs.MemoryFiles.{file_of, failing_calls, read_count, fault_count, SameCalls};

    /// Holds no file, and no call is to fail.
    pub fn new(alloc: Global) -> Self
        ensures files { (name : List ℕ) → file_of result name ≡ None }
        ensures failing { failing_calls result ≡ [] }
        ensures reads { read_count result ≡ 0 }
        ensures faults { fault_count result ≡ 0 }
    {
        MemoryFiles {
            alloc,
            files: Vec::new(alloc),
            failing: Vec::new(alloc),
            faults: 0,
            reads: 0,
        }
    }

    /// Puts in a file, in place of one of that name.
    pub fn hold(&mut self, name: &str, bytes: &[u8]) -> Result<(), AllocError>
        ensures ok { OnOk result (HoldsAt (file_of self.old) (file_of self.new) name.now bytes.now) }
        ensures err { OnErr result (file_of self.new ≡ file_of self.old) }
        ensures calls { SameCalls self.old self.new }
    {
        let bytes = Vec::from_slice(self.alloc, bytes)?;
        put_in(self.alloc, &mut self.files, name, bytes)
    }

    /// Makes the call of `read` with this number fail.
    pub fn fail_at(&mut self, call: u64) -> Result<(), AllocError>
        ensures ok { OnOk result (failing_calls self.new ≡ failing_calls self.old ++ call ∷ []) }
        ensures err { OnErr result (failing_calls self.new ≡ failing_calls self.old) }
        ensures files { file_of self.new ≡ file_of self.old }
        ensures reads { read_count self.new ≡ read_count self.old }
        ensures faults { fault_count self.new ≡ fault_count self.old }
    {
        self.failing.push(call)?;
        Ok(())
    }
}

// The place of the file of this name.
fn place_of(files: &[HeldFile], name: &str) -> Option<usize>
    ensures { result ≡ position (has_name name.now) files.now }
{
    files.iter().position(|file| file.name.as_str() == name)
}

// Puts a file in the place of the one of its name, or behind the others.
fn put_in(
    alloc: Global,
    files: &mut Vec<HeldFile>,
    name: &str,
    bytes: Vec<u8>,
) -> Result<(), AllocError>
    ensures ok { OnOk result (HoldsAt (bytes_in files.old.items) (bytes_in files.new.items) name.now bytes.items) }
    ensures err { OnErr result (files.new.items ≡ files.old.items) }
{
    match place_of(files, name) {
        Some(place) => {
            let file = &mut files[place];
            file.bytes = bytes;
        }
        None => {
            let name = String::from_str(alloc, name)?;
            files.push(HeldFile { name, bytes })?;
        }
    }
    Ok(())
}

// The bytes of the file of this name.
fn find_bytes<'a>(files: &'a [HeldFile], name: &str) -> Option<&'a [u8]>
    ensures { option_copied result ≡ bytes_in files.now name.now }
{
    let file = files.iter().find(|file| file.name.as_str() == name)?;
    Some(&file.bytes)
}

impl Files for MemoryFiles {
    ghost use Rattle.outside.specs.MemoryFiles.{file_of, failing_calls, read_count, fault_count, state_of};

    ghost state = { state_of };

    /// Fails exactly where the call's number is one of those that are to fail.
    fn read(&mut self, alloc: Global, name: &str, limit: u64) -> Result<Vec<u8>, FileRefusal>
        ensures files { file_of self.new ≡ file_of self.old }
        ensures failing { failing_calls self.new ≡ failing_calls self.old }
        ensures reads { read_count self.new ≡ raised (read_count self.old) }

        ensures fails { OnFailed result (Contains (failing_calls self.old) (read_count self.new)) }
        ensures planned { Contains (failing_calls self.old) (read_count self.new) →
            IsErrOf result FileRefusal.Failed }
        ensures fault { OnFailed result (fault_count self.new ≡ raised (fault_count self.old)) }
        ensures no_fault { UnlessFailed result (fault_count self.new ≡ fault_count self.old) }
        ensures rises { OnFailed result (HasRisen (fault_count self.old) (fault_count self.new)) }
        ensures never_fall { fault_count self.old ≤ fault_count self.new }

        ensures bytes { IfOk result (λ file.
            (file_of self.old name.now ≡ Some file.items) × (vec_len file ≤ limit)) }
        ensures not_held { OnNotHeld result (file_of self.old name.now ≡ None) }
        ensures too_long { OnTooLong result (IsSomeAnd (file_of self.old name.now) (λ bytes. limit < length bytes)) }
    {
        self.reads = self.reads.saturating_add(1);
        if self.failing.contains(&self.reads) {
            self.faults = self.faults.saturating_add(1);
            return Err(FileRefusal::Failed);
        }
        let Some(bytes) = find_bytes(&self.files, name) else {
            return Err(FileRefusal::NotHeld);
        };
        if bytes.len() as u64 > limit {
            return Err(FileRefusal::TooLong);
        }
        match bytes.to_vec(alloc) {
            Ok(bytes) => Ok(bytes),
            Err(_) => Err(FileRefusal::OutOfMemory),
        }
    }
}

#[cfg(test)]
mod tests {
    use super::*;
    use std::test::Fail;

    #[test]
    fn reads_what_it_holds(rt: HostRuntime) -> Result<(), Fail> {
        let alloc = rt.alloc();
        let mut files = MemoryFiles::new(alloc);
        files.hold("a", b"one")?;
        files.hold("b", b"")?;
        files.hold("a", b"three")?;
        files.fail_at(3)?;
        let rows: [(&str, u64, Result<&[u8], FileRefusal>); 5] = [
            ("a", 5, Ok(b"three")),
            ("a", 4, Err(FileRefusal::TooLong)),
            ("b", 9, Err(FileRefusal::Failed)),
            ("b", 0, Ok(b"")),
            ("c", 9, Err(FileRefusal::NotHeld)),
        ];
        for (name, limit, want) in rows {
            match files.read(alloc, name, limit) {
                Ok(bytes) => assert_eq!(rt; Ok(bytes.as_slice()), want, "{name} within {limit}"),
                Err(refusal) => assert_eq!(rt; Err(refusal), want, "{name} within {limit}"),
            }
        }
        assert_eq!(rt; (files.reads, files.faults), (5, 1));
        Ok(())
    }
}
