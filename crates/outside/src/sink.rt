// What a program writes to, a piece at a time.
ghost use Rattle.std.specs.Prelude.{◌≡◌, ◌≤◌, [], IsOk, OnOk, OnErr};
ghost use Rattle.outside.specs.Counts.{HasRisen};
ghost use Rattle.outside.specs.Sink.{SinkState, Gained, GainedFront};

/// A piece that a sink didn't take whole.
#[derive(Clone, Copy, Debug, PartialEq, Eq)]
pub struct SinkFailed;

/// A sink of bytes. Its count begins at 0, never falls, and stays at 2^64 - 1 once there.
pub trait Sink {
    /// What the sink has taken, as far as it tells, and how many calls of `put` failed.
    ghost state: { Self → SinkState };

    /// Takes a whole piece, or some first bytes of it and counts a fault.
    fn put(&mut self, piece: &[u8]) -> Result<(), SinkFailed>
        ensures ok { OnOk result (Gained (state self.old).contents (state self.new).contents piece.now) }
        ensures err { OnErr result (GainedFront (state self.old).contents (state self.new).contents piece.now) }

        // A fault is answered only where it is counted, and only a fault is.
        ensures failed { OnErr result (HasRisen (state self.old).faults (state self.new).faults) }
        ensures no_fault { OnOk result ((state self.new).faults ≡ (state self.old).faults) }
        ensures never_fall { (state self.old).faults ≤ (state self.new).faults }

        ensures empty { piece.now ≡ [] → IsOk result }
        ensures nothing { piece.now ≡ [] → (state self.new).contents ≡ (state self.old).contents };
}
