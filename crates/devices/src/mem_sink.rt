//! A sink in memory that fails at the calls that it is told to fail at.
ghost use Rattle.std.specs.Prelude.{◌≡◌, ◌+◌, ◌/◌, ◌<◌, ◌≤◌, ◌⊎◌, [], ◌++◌, length, take, Some, Contains, OnOk};
ghost use Rattle.std.specs.Prelude.{OnErr, IsErr};
ghost use Rattle.outside.specs.Bytes.{Appends, AppendsFront};
ghost use Rattle.outside.specs.Counts.{raised, Rose, HasCause};
ghost use Rattle.devices.specs.MemSink.{sink_faults};

use outside::{Failed, Sink};
use std::alloc::Global;
use std::marker::Model;

/// A list of bytes that grows, with a list of the numbers of the calls that are to fail, counted from 0. It tells the
/// bytes taken. Its faults are its listed calls, once they are made, and the calls for which memory ran out.
#[derive(Debug, Drop)]
pub struct MemSink {
    taken: Vec<u8>,
    failing: Vec<u64>,
    calls: u64,
    listed: u64,
    starved: u64,
}

impl Model for MemSink {
    ghost use Rattle.devices.specs.MemSink.{MemSinkState};

    ghost Value = { MemSinkState };

    ghost view = { λ s. record {
      taken = s.taken.items;
      failing = s.failing.items;
      calls = s.calls;
      listed = s.listed;
      starved = s.starved;
    } };
}

impl MemSink {
    /// An empty sink, with no call made yet. It takes no memory before the first write.
    pub fn new(alloc: Global, failing: Vec<u64>) -> MemSink
        ensures { result ≡ record { taken = []; failing = failing.items; calls = 0; listed = 0; starved = 0 } }
    {
        MemSink {
            taken: Vec::new(alloc),
            failing,
            calls: 0,
            listed: 0,
            starved: 0,
        }
    }

    /// The bytes taken.
    pub fn bytes(&self) -> &[u8]
        ensures { result.now ≡ self.now.taken }
    {
        &self.taken
    }

    /// For how many calls memory ran out. The count stands still at 2^64 - 1.
    pub fn starved(&self) -> u64
        ensures { result ≡ self.now.starved }
    {
        self.starved
    }
}

impl Sink for MemSink {
    ghost state = { λ sink. record { taken = Some sink.taken; faults = sink_faults sink } };

    /// A listed call fails when the sink has taken half of the piece, of 5 bytes 2. A call for which memory ran out
    /// fails and takes nothing, listed or not.
    fn write(&mut self, piece: &[u8]) -> Result<(), Failed>
        ensures whole { OnOk result (Appends (Some self.old.taken) (Some self.new.taken) piece.now) }
        ensures front { OnErr result (AppendsFront (Some self.old.taken) (Some self.new.taken) piece.now) }
        ensures cause { HasCause (sink_faults self.old) (sink_faults self.new) result }

        // When it fails.
        ensures listed_fails { Contains self.old.failing self.old.calls → IsErr result }
        ensures starved_fails { self.old.starved < self.new.starved → IsErr result }
        ensures else_succeeds { OnErr result
            (Contains self.old.failing self.old.calls ⊎ Rose self.old.starved self.new.starved) }

        // What a write that fails takes.
        ensures half { Contains self.old.failing self.old.calls → ¬ Rose self.old.starved self.new.starved
            → self.new.taken ≡ self.old.taken ++ take (length piece.now / 2) piece.now }
        ensures nothing { self.old.starved < self.new.starved → self.new.taken ≡ self.old.taken }
        ensures unlisted { ¬ Contains self.old.failing self.old.calls
            → OnErr result (self.new.taken ≡ self.old.taken) }
        ensures half_or_nothing { Contains self.old.failing self.old.calls
            → (self.new.taken ≡ self.old.taken ++ take (length piece.now / 2) piece.now)
            ⊎ (self.new.taken ≡ self.old.taken) }

        // The counts.
        ensures failing { self.new.failing ≡ self.old.failing }
        ensures calls { self.new.calls ≡ raised self.old.calls }
        ensures counted { Contains self.old.failing self.old.calls → self.new.listed ≡ raised self.old.listed }
        ensures not_counted { ¬ Contains self.old.failing self.old.calls → self.new.listed ≡ self.old.listed }
        ensures starved { (self.new.starved ≡ self.old.starved) ⊎ (self.new.starved ≡ raised self.old.starved) }
    {
        let call = self.calls;
        self.calls = call.saturating_add(1);
        if self.failing.contains(&call) {
            self.listed = self.listed.saturating_add(1);
            let half = &piece[..piece.len() / 2];
            if self.taken.extend_from_slice(half).is_err() {
                self.starved = self.starved.saturating_add(1);
            }
            return Err(Failed);
        }
        if self.taken.extend_from_slice(piece).is_err() {
            self.starved = self.starved.saturating_add(1);
            return Err(Failed);
        }
        Ok(())
    }
}
