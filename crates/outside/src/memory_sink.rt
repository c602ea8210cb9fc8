// A sink in memory, which tells what it took.
ghost use Rattle.std.specs.Prelude.{◌≡◌, ◌≢◌, ℕ, ◌+◌, ◌<◌, ◌≤◌, List, [], ◌∷◌, ◌++◌, length, None, Some, IfOk, IsOk, IsErr, IsSome, OnOk, OnErr, vec_len, vec_capacity};
ghost use Rattle.outside.specs.Counts.{raised, HasRisen};
ghost use Rattle.outside.specs.Plans.{kept_in, kept_of, AddsPlan};
ghost use Rattle.outside.specs.Sink.{Gained, GainedFront};

use crate::{Sink, SinkFailed};
use std::alloc::{AllocError, Global};

// The number of a call that is to fail, and how many bytes it keeps.
#[derive(Clone, Copy)]
struct PlannedFault {
    call: u64,
    kept: usize,
}

/// A sink in memory. A call of `put` fails where its number, from 1 on, was given to `fail_at`, or
/// where its piece passes the room. The number of a call is the count of calls after it, among
/// which those with an empty piece aren't.
#[derive(Drop)]
pub struct MemorySink {
    taken: Vec<u8>,
    planned: Vec<PlannedFault>,
    room: usize,
    calls: u64,
    faults: u64,
    ghost has_memory: { room ≤ vec_capacity taken },
    ghost within_room: { vec_len taken ≤ room },
}

impl MemorySink {
    ghost use Rattle.outside.specs.MemorySink.{taken_bytes, room_of, call_count, fault_count, planned_fault, SameCalls};

    /// Takes the memory for `room` bytes at once. No call is to fail.
    pub fn new(alloc: Global, room: usize) -> Result<Self, AllocError>
        ensures taken { IfOk result (λ sink. taken_bytes sink ≡ []) }
        ensures room { IfOk result (λ sink. room_of sink ≡ room) }
        ensures calls { IfOk result (λ sink. call_count sink ≡ 0) }
        ensures faults { IfOk result (λ sink. fault_count sink ≡ 0) }
        ensures planned { IfOk result (λ sink. (call : ℕ) → planned_fault sink call ≡ None) }
    {
        let taken = Vec::with_capacity(alloc, room)?;
        Ok(MemorySink {
            taken,
            planned: Vec::new(alloc),
            room,
            calls: 0,
            faults: 0,
        })
    }

    /// Makes the call of `put` with this number fail, after it kept so many bytes of its piece, or
    /// as many as there are and have room. Of two plans for a call the first counts.
    pub fn fail_at(&mut self, call: u64, kept: usize) -> Result<(), AllocError>
        ensures ok { OnOk result (AddsPlan (planned_fault self.old) (planned_fault self.new) call kept) }
        ensures err { OnErr result (planned_fault self.new ≡ planned_fault self.old) }
        ensures calls { SameCalls self.old self.new }
    {
        self.planned.push(PlannedFault { call, kept })?;
        Ok(())
    }

    /// What the sink took.
    pub fn bytes(&self) -> &[u8]
        ensures { result.now ≡ taken_bytes self.now }
    {
        &self.taken
    }
}

// How many bytes the call of this number is to keep, where it is to fail.
fn find_kept(plans: &[PlannedFault], call: u64) -> Option<usize>
    ensures { result ≡ kept_in plans.now call }
{
    let plan = plans.iter().find(|plan| plan.call == call)?;
    Some(plan.kept)
}

// Adds bytes for which there is memory.
fn append(taken: &mut Vec<u8>, bytes: &[u8])
    requires { vec_len taken.old + length bytes.now ≤ vec_capacity taken.old }
    ensures items { taken.new.items ≡ taken.old.items ++ bytes.now }
    ensures len { vec_len taken.new ≡ vec_len taken.old + length bytes.now }
    ensures capacity { vec_capacity taken.old ≤ vec_capacity taken.new }
{
    let _ = taken.extend_from_slice(bytes);
}

impl Sink for MemorySink {
    ghost use Rattle.outside.specs.MemorySink.{taken_bytes, room_of, room_left, call_count, fault_count, next_fault, planned_fault, state_of};

    ghost state = { state_of };

    /// Fails exactly where a failure of the call is planned or its piece passes the room. A call with
    /// an empty piece changes nothing and never fails.
    fn put(&mut self, piece: &[u8]) -> Result<(), SinkFailed>
        ensures taken { taken_bytes self.new
            ≡ taken_bytes self.old ++ kept_of (next_fault self.old) (room_left self.old) piece.now }
        ensures room { room_of self.new ≡ room_of self.old }
        ensures planned { planned_fault self.new ≡ planned_fault self.old }

        ensures counted { piece.now ≢ [] → call_count self.new ≡ raised (call_count self.old) }
        ensures uncounted { piece.now ≡ [] → call_count self.new ≡ call_count self.old }
        ensures fault { OnErr result (fault_count self.new ≡ raised (fault_count self.old)) }
        ensures no_fault { OnOk result (fault_count self.new ≡ fault_count self.old) }
        ensures rises { OnErr result (HasRisen (fault_count self.old) (fault_count self.new)) }
        ensures never_fall { fault_count self.old ≤ fault_count self.new }

        ensures fits { next_fault self.old ≡ None → length piece.now ≤ room_left self.old → IsOk result }
        ensures fails { IsSome (next_fault self.old) → piece.now ≢ [] → IsErr result }
        ensures passes { room_left self.old < length piece.now → IsErr result }
        ensures empty { piece.now ≡ [] → IsOk result }
    {
        if piece.is_empty() {
            return Ok(());
        }
        self.calls = self.calls.saturating_add(1);
        let left = self.room - self.taken.len();
        let planned = find_kept(&self.planned, self.calls);
        let kept = planned.unwrap_or(left).min(left).min(piece.len());
        append(&mut self.taken, &piece[..kept]);
        if planned.is_none() && kept == piece.len() {
            return Ok(());
        }
        self.faults = self.faults.saturating_add(1);
        Err(SinkFailed)
    }
}

#[cfg(test)]
mod tests {
    use super::*;
    use std::test::Fail;

    #[test]
    fn takes_what_has_room(rt: HostRuntime) -> Result<(), Fail> {
        let mut sink = MemorySink::new(rt.alloc(), 9)?;
        sink.fail_at(2, 2)?;
        let rows: [(&[u8], bool, &[u8]); 6] = [
            (b"abc", true, b"abc"),
            (b"", true, b"abc"),
            (b"fghij", false, b"abcfg"),
            (b"12", true, b"abcfg12"),
            (b"345", false, b"abcfg1234"),
            (b"", true, b"abcfg1234"),
        ];
        for (piece, is_taken, want) in rows {
            assert_eq!(rt; sink.put(piece).is_ok(), is_taken, "{piece:?}");
            assert_eq!(rt; sink.bytes(), want);
        }
        assert_eq!(rt; (sink.calls, sink.faults), (4, 2));
        Ok(())
    }
}
