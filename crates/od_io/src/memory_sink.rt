//! A sink in memory, which fails once it is full.
ghost use Rattle.std.specs.Prelude.{◌≡◌, ◌-◌, ◌^◌, ◌<◌, ◌≤◌, ◌↔◌, [], min, length, Some, IfOk, OnErr, IsErr};
ghost use Rattle.std.specs.Io.KnownBytes.{WriteAppends};
ghost use Rattle.od_io.specs.Streams.Count.{Rose, CountsFault};

use super::count::FaultCount;
use super::streams::{Failed, Sink};
use od_text::text::NoMemory;
use std::alloc::Global;
use std::marker::Model;

/// A sink in memory, which takes a chosen number of bytes in all. Its memory is taken when it is
/// made.
#[derive(Drop)]
pub struct MemSink {
    taken: Vec<u8>,
    // How many bytes it takes in all.
    room: usize,
    faults: FaultCount,
}

impl Model for MemSink {
    ghost use Rattle.std.specs.Prelude.{◌≤◌, vec_len, vec_capacity};
    ghost use Rattle.od_io.specs.Streams.Memory.{SinkState};

    ghost Value = { SinkState };

    ghost view = { λ s. record { written = s.taken.items; room = s.room; faults = s.faults.count } };

    ghost invariant = { λ s. (vec_len s.taken ≤ s.room) × (s.room ≤ vec_capacity s.taken) };
}

impl MemSink {
    /// A sink that takes `room` bytes in all.
    pub fn new(alloc: Global, room: usize) -> Result<MemSink, NoMemory>
        ensures written { IfOk result (λ s. s.written ≡ []) }
        ensures room { IfOk result (λ s. s.room ≡ room) }
        ensures faults { IfOk result (λ s. s.faults ≡ 0) }
    {
        Ok(MemSink {
            taken: Vec::with_capacity(alloc, room)?,
            room,
            faults: FaultCount::new(),
        })
    }

    /// The bytes that were written.
    pub fn written(&self) -> &[u8]
        ensures written { result.now ≡ self.now.written }
        ensures room { length result.now ≤ self.now.room }
    {
        self.taken.as_slice()
    }
}

impl Sink for MemSink {
    ghost written = { λ s. Some s.written };

    ghost faults = { λ s. s.faults };

    fn write(&mut self, piece: &[u8]) -> Result<usize, Failed>
        requires { 0 < length piece.now }
        // What every sink does.
        ensures takes { IfOk result (λ n. (0 < n) × (n ≤ length piece.now)) }
        ensures bytes { WriteAppends (Some self.old.written) (Some self.new.written) result piece.now }
        ensures failed { OnErr result (Rose self.old.faults self.new.faults) }
        ensures later { self.old.faults ≤ self.new.faults }
        ensures last { self.new.faults ≤ 2 ^ 64 - 1 }

        // A write fails once the sink is full, and only then. Before, it takes all that there is
        // room for.
        ensures full { IsErr result ↔ (length self.old.written ≡ self.old.room) }
        ensures amount { IfOk result (λ n.
            n ≡ min (length piece.now) (self.old.room - length self.old.written)) }
        ensures room { self.new.room ≡ self.old.room }

        // The count rises exactly where a write failed.
        ensures faults { CountsFault result self.old.faults self.new.faults }
    {
        let left = self.room - self.taken.len();
        if left == 0 {
            return Err(self.faults.failed());
        }
        let n = piece.len().min(left);
        self.taken.extend_from_slice(&piece[..n]).unwrap();
        Ok(n)
    }
}
