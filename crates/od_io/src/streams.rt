//! Where bytes come from and go to.
ghost use Rattle.std.specs.Prelude.{ℕ, ◌-◌, ◌^◌, ◌<◌, ◌≤◌, List, Option, IfOk, OnErr, length};
ghost use Rattle.std.specs.Io.KnownBytes.{ReadConsumes, WriteAppends};
ghost use Rattle.od_io.specs.Streams.Count.{Rose};

/// A read or a write that failed.
#[derive(Clone, Copy, Debug, PartialEq, Eq)]
pub struct Failed;

/// Where bytes come from.
pub trait Source {
    /// The bytes that reads will give from here on, in their order, where they are told.
    ghost left: { Self → Option (List ℕ) };

    /// How many reads failed. The count stays at 2^64 - 1.
    ghost faults: { Self → ℕ };

    /// Puts the next bytes, at most as many as fit, at the front of `into`, and gives their
    /// number: 0 is the end of input. A read that failed leaves the bytes to be read as they were.
    fn read(&mut self, into: &mut [u8]) -> Result<usize, Failed>
        requires { 0 < length into.old }
        ensures fits { IfOk result (λ n. n ≤ length into.new) }
        ensures bytes { ReadConsumes (left self.old) (left self.new) result into.new }
        ensures failed { OnErr result (Rose (faults self.old) (faults self.new)) }
        ensures later { faults self.old ≤ faults self.new }
        ensures last { faults self.new ≤ 2 ^ 64 - 1 };
}

/// Where bytes go to.
pub trait Sink {
    /// The bytes that were written, in their order, where they are told.
    ghost written: { Self → Option (List ℕ) };

    /// How many writes failed. The count stays at 2^64 - 1.
    ghost faults: { Self → ℕ };

    /// Takes 1 or more bytes from the front of `piece`, and gives their number. A write that
    /// failed takes none.
    fn write(&mut self, piece: &[u8]) -> Result<usize, Failed>
        requires { 0 < length piece.now }
        ensures takes { IfOk result (λ n. (0 < n) × (n ≤ length piece.now)) }
        ensures bytes { WriteAppends (written self.old) (written self.new) result piece.now }
        ensures failed { OnErr result (Rose (faults self.old) (faults self.new)) }
        ensures later { faults self.old ≤ faults self.new }
        ensures last { faults self.new ≤ 2 ^ 64 - 1 };
}
