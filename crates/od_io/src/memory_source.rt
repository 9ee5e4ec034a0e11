//! A source in memory, whose faults are chosen.
ghost use Rattle.std.specs.Prelude.{◌≡◌, ℕ, ◌-◌, ◌^◌, ◌<◌, ◌≤◌, ◌↔◌, min, length, Contains, Some, IfOk, OnErr, IsErr, IsTrue};
ghost use Rattle.std.specs.Io.KnownBytes.{ReadConsumes};
ghost use Rattle.std.specs.List.Sorted.{IsNonDecreasing};
ghost use Rattle.od_io.specs.Streams.Count.{Rose, CountsFault, count_up};

use super::count::FaultCount;
use super::streams::{Failed, Source};
use od_text::text::Bytes;
use std::marker::Model;

/// A source over bytes in memory, of which chosen reads fail.
#[derive(Drop)]
pub struct MemSource {
    bytes: Bytes,
    // How many bytes were read.
    at: usize,
    // How many reads were made, at most 2^64 - 1, which is the number of the next one.
    calls: u64,
    // The numbers of the reads that fail, in ascending order.
    failing: Vec<u32>,
    faults: FaultCount,
}

impl Model for MemSource {
    ghost use Rattle.std.specs.Prelude.{◌≤◌, length, drop};
    ghost use Rattle.std.specs.List.Sorted.{IsNonDecreasing};
    ghost use Rattle.od_io.specs.Streams.Memory.{SourceState};

    ghost Value = { SourceState };

    ghost view = { λ s. record { left = drop s.at s.bytes; calls = s.calls; failing = s.failing.items; faults = s.faults.count } };

    ghost invariant = { λ s. (s.at ≤ length s.bytes) × IsNonDecreasing s.failing.items };
}

impl MemSource {
    /// A source of these bytes. Those of its reads fail that `failing` lists, in any order,
    /// numbered from 0.
    pub fn new(bytes: Bytes, mut failing: Vec<u32>) -> MemSource
        ensures left { result.left ≡ bytes }
        ensures failing { (call : ℕ) → Contains result.failing call ↔ Contains failing.items call }
        ensures calls { result.calls ≡ 0 }
        ensures faults { result.faults ≡ 0 }
    {
        failing.sort_unstable();
        MemSource {
            bytes,
            at: 0,
            calls: 0,
            failing,
            faults: FaultCount::new(),
        }
    }
}

/// Whether an ascending list of calls has this one.
pub(crate) fn is_listed(calls: &[u32], call: u64) -> bool
    requires { IsNonDecreasing calls.now }
    ensures { IsTrue result ↔ Contains calls.now call }
{
    match u32::try_from(call) {
        Ok(call) => calls.binary_search(&call).is_ok(),
        Err(_) => false,
    }
}

impl Source for MemSource {
    ghost left = { λ s. Some s.left };

    ghost faults = { λ s. s.faults };

    fn read(&mut self, into: &mut [u8]) -> Result<usize, Failed>
        requires { 0 < length into.old }
        // What every source does.
        ensures fits { IfOk result (λ n. n ≤ length into.new) }
        ensures bytes { ReadConsumes (Some self.old.left) (Some self.new.left) result into.new }
        ensures failed { OnErr result (Rose self.old.faults self.new.faults) }
        ensures later { self.old.faults ≤ self.new.faults }
        ensures last { self.new.faults ≤ 2 ^ 64 - 1 }

        // A listed read fails, and only that. Every other one gives as many bytes as fit.
        ensures listed { IsErr result ↔ Contains self.old.failing self.old.calls }
        ensures amount { IfOk result (λ n. n ≡ min (length into.old) (length self.old.left)) }

        // The count rises exactly where a read failed.
        ensures faults { CountsFault result self.old.faults self.new.faults }
        ensures calls { self.new.calls ≡ count_up self.old.calls }
        ensures failing { self.new.failing ≡ self.old.failing }
    {
        let is_failing = is_listed(&self.failing, self.calls);
        self.calls = self.calls.saturating_add(1);
        if is_failing {
            return Err(self.faults.failed());
        }
        let bytes = self.bytes.get();
        let rest = &bytes[self.at..];
        let n = rest.len().min(into.len());
        into[..n].copy_from_slice(&rest[..n]);
        self.at += n;
        Ok(n)
    }
}

#[cfg(test)]
mod tests {
    use super::*;
    use std::test::Fail;

    #[test]
    fn a_read_that_failed_loses_no_byte(rt: HostRuntime) -> Result<(), Fail> {
        let bytes = Bytes::from_slice(rt.alloc(), b"abc")?;
        let mut source = MemSource::new(bytes, vec![in rt.alloc(); 2, 0]?);
        let mut into = [0; 8];
        assert_eq!(rt; source.read(&mut into), Err(Failed));
        assert_eq!(rt; source.read(&mut into), Ok(3));
        assert_eq!(rt; &into[..3], b"abc".as_slice());
        assert_eq!(rt; source.read(&mut into), Err(Failed));
        assert_eq!(rt; source.read(&mut into), Ok(0));
        Ok(())
    }
}
