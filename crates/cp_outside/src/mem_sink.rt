//! A sink in memory, for tests.

ghost use Rattle.std.specs.Prelude.{◌≡◌, ◌≢◌, ◌≤◌, [], ◌∷◌, Some, IfOk, OnOk, OnErr};
ghost use Rattle.cp_outside.specs.Faults.{RoseOrFull};
ghost use Rattle.cp_outside.specs.Puts.{OnDone, OnPutFailed, OnPutOutOfMemory, UnlessPutFailed, UnlessPutOutOfMemory, appended, AppendsFront};
ghost use Rattle.cp_outside.specs.Recordings.{next_call, next_keep, keep_of, piece, end_of, after_put, IsWithinRoom};

use crate::sink::{PutEnd, Sink};
use std::alloc::{AllocError, Global};
use std::marker::Model;

/// A put that is planned to fail: its number, from 1, and how many bytes of its piece it keeps.
#[derive(Clone, Copy, Debug, PartialEq, Eq)]
pub struct PlannedFailure {
    pub call: u64,
    pub keep: usize,
}

/// A sink in memory that tells its bytes, and fails where it was planned to.
#[derive(Drop)]
pub struct MemSink {
    written: Vec<u8>,
    // The bytes for which memory was taken beforehand.
    room: usize,
    calls: u64,
    faults: u64,
    // The failure that was planned last stands first.
    planned: Vec<PlannedFailure>,
}

impl Model for MemSink {
    ghost use Rattle.std.specs.Prelude.{◌≤◌, vec_capacity};
    ghost use Rattle.cp_outside.specs.Recordings.{Recording};

    ghost Value = { Recording };

    ghost view = { λ sink. record {
      written = sink.written.items;
      faults = sink.faults;
      calls = sink.calls;
      room = sink.room;
      planned = sink.planned.items;
    } };

    ghost invariant = { λ sink. sink.room ≤ vec_capacity sink.written };
}

impl MemSink {
    /// An empty sink that takes `room` bytes without further memory.
    pub fn with_room(alloc: Global, room: usize) -> Result<MemSink, AllocError>
        ensures { IfOk result (λ sink. sink ≡ record {
          written = [];
          faults = 0;
          calls = 0;
          room = room;
          planned = [];
        }) }
    {
        let written = Vec::with_capacity(alloc, room)?;
        Ok(MemSink {
            written,
            room,
            calls: 0,
            faults: 0,
            planned: Vec::new(alloc),
        })
    }

    /// Lets the put of this number fail, counted from 1. It appends the first `keep` bytes of its piece, or all
    /// of it where it is shorter. Of two failures for one put the later one counts. At an `Err` all is as before.
    pub fn fail_at(&mut self, call: u64, keep: usize) -> Result<(), AllocError>
        ensures planned { OnOk result
            (self.new ≡ record self.old { planned = record { call = call; keep = keep } ∷ self.old.planned }) }
        ensures refused { OnErr result (self.new ≡ self.old) }
    {
        self.planned.insert(0, PlannedFailure { call, keep })?;
        Ok(())
    }

    /// The bytes that were written.
    pub fn bytes(&self) -> &[u8]
        ensures { result.now ≡ self.now.written }
    {
        self.written.as_slice()
    }
}

// How many bytes the put of this number keeps, where it is planned to fail.
#[tactic(auto, unfolding(crate::specs::Recordings::keep_of))]
fn planned_keep(planned: &[PlannedFailure], call: u64) -> Option<usize>
    ensures { result ≡ keep_of planned.now call }
{
    planned
        .iter()
        .find(|plan| plan.call == call)
        .map(|plan| plan.keep)
}

// The bytes that a put appends, if it keeps so many.
fn front(keep: Option<usize>, bytes: &[u8]) -> &[u8]
    ensures { result.now ≡ piece keep bytes.now }
{
    match keep {
        None => bytes,
        Some(keep) => &bytes[..keep.min(bytes.len())],
    }
}

impl Sink for MemSink {
    ghost told = { λ sink. Some sink.written };

    ghost faults = { λ sink. sink.faults };

    #[tactic(auto, using(crate::proofs::PutLaws::puts), unfolding(crate::specs::Recordings::after_put))]
    fn put(&mut self, bytes: &[u8]) -> PutEnd
        ensures done { OnDone result (Some self.new.written ≡ appended (Some self.old.written) bytes.now) }
        ensures front { OnPutFailed result (AppendsFront (Some self.old.written) (Some self.new.written) bytes.now) }
        ensures nothing { OnPutOutOfMemory result (Some self.new.written ≡ Some self.old.written) }
        ensures failed { OnPutFailed result (RoseOrFull self.old.faults self.new.faults) }
        ensures quiet { UnlessPutFailed result (self.new.faults ≡ self.old.faults) }
        ensures never_falls { self.old.faults ≤ self.new.faults }
        // It does what is planned, if memory is there.
        ensures as_planned { UnlessPutOutOfMemory result (result ≡ end_of (next_keep self.old)) }
        ensures taken { UnlessPutOutOfMemory result (self.new ≡ after_put self.old bytes.now) }
        ensures refused { OnPutOutOfMemory result (self.new ≡ record self.old { calls = next_call self.old }) }
        // Within its room memory is there.
        ensures within_room { IsWithinRoom (after_put self.old bytes.now) → result ≢ PutEnd.OutOfMemory }
    {
        self.calls = self.calls.saturating_add(1);
        let keep = planned_keep(self.planned.as_slice(), self.calls);
        if self.written.extend_from_slice(front(keep, bytes)).is_err() {
            return PutEnd::OutOfMemory;
        }
        match keep {
            None => PutEnd::Done,
            Some(_) => {
                self.faults = self.faults.saturating_add(1);
                PutEnd::Failed
            }
        }
    }
}
