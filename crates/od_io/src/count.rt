//! Counts of faults.
ghost use Rattle.std.specs.Prelude.{◌≡◌, ◌-◌, ◌^◌, ◌≤◌};
ghost use Rattle.od_io.specs.Streams.Count.{count_up};

use super::streams::Failed;

/// How many calls failed. The count stays at its last value, 2^64 - 1.
#[derive(Drop)]
pub struct FaultCount {
    count: u64,
    ghost last: { count ≤ 2 ^ 64 - 1 },
}

impl FaultCount {
    /// The count before any fault.
    pub fn new() -> FaultCount
        ensures { result.count ≡ 0 }
    {
        FaultCount { count: 0 }
    }

    /// Counts one more fault, and gives what its call answers.
    pub fn failed(&mut self) -> Failed
        ensures { self.new.count ≡ count_up self.old.count }
    {
        self.count = self.count.saturating_add(1);
        Failed
    }
}
