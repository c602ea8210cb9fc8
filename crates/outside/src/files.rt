// Files that are read whole, by their names.
ghost use Rattle.std.specs.Prelude.{◌≡◌, ◌≤◌, IfOk, vec_len};
ghost use Rattle.outside.specs.Counts.{raised, HasRisen};
ghost use Rattle.outside.specs.Files.{StoreState, IsAbsent, IsLonger, IsLongerIfTold, IsWithin, HasBytes, OnNotHeld, OnTooLong, OnFailed, UnlessFailed, IsRefusedAs, IsGiven};

use std::alloc::Global;

/// Why a file isn't read.
#[derive(Clone, Copy, Debug, PartialEq, Eq)]
pub enum FileRefusal {
    /// The store, which tells its files, has none of this name.
    NotHeld,
    /// The file is longer than the limit.
    TooLong,
    /// The store counts a fault.
    Failed,
    /// There is no memory for the bytes.
    OutOfMemory,
}

/// A store of files. Its counts begin at 0, never fall, and stay at 2^64 - 1 once there.
pub trait Files {
    /// What the store holds, as far as it tells, and how many calls of `read` there were and failed.
    ghost state: { Self → StoreState };

    /// The whole file of this name, of at most `limit` bytes.
    ///
    /// `OutOfMemory` may come in place of any other answer.
    fn read(&mut self, alloc: Global, name: &str, limit: u64) -> Result<Vec<u8>, FileRefusal>
        ensures held { (state self.new).held ≡ (state self.old).held }
        ensures reads { (state self.new).reads ≡ raised (state self.old).reads }

        // A fault is answered only where it is counted, and only a fault is.
        ensures failed { OnFailed result (HasRisen (state self.old).faults (state self.new).faults) }
        ensures no_fault { UnlessFailed result ((state self.new).faults ≡ (state self.old).faults) }
        ensures never_fall { (state self.old).faults ≤ (state self.new).faults }

        ensures bytes { IfOk result (λ file. HasBytes (state self.old).held name.now file.items) }
        ensures within { IfOk result (λ file. vec_len file ≤ limit) }

        // Each refusal, and what it says of a told file.
        ensures not_held { OnNotHeld result (IsAbsent (state self.old).held name.now) }
        ensures too_long { OnTooLong result (IsLongerIfTold (state self.old).held name.now limit) }

        // Each told file, and the answer that comes but for a fault and for memory.
        ensures absent { IsAbsent (state self.old).held name.now → IsRefusedAs FileRefusal.NotHeld result }
        ensures longer { IsLonger (state self.old).held name.now limit → IsRefusedAs FileRefusal.TooLong result }
        ensures fits { IsWithin (state self.old).held name.now limit → IsGiven result };
}
