//! Standard input, output and error. What passes through them is told by no clause. A call that
//! a signal cut off counts as failed.
ghost use Rattle.std.specs.Prelude.{◌≡◌, ◌≤◌, length, None};

use super::count::FaultCount;
use super::streams::{Failed, Sink, Source};
use std::io::{Read, Stderr, Stdin, Stdout, Write};

/// Standard input.
#[derive(Drop)]
pub struct StdSource {
    input: Stdin,
    faults: FaultCount,
}

impl StdSource {
    /// Standard input, of which no read failed yet.
    pub fn new(input: Stdin) -> StdSource
        ensures { ⟦<StdSource as Source>⟧.faults result ≡ 0 }
    {
        StdSource {
            input,
            faults: FaultCount::new(),
        }
    }
}

impl Source for StdSource {
    ghost left = { λ _. None };

    ghost faults = { λ s. s.faults.count };

    fn read(&mut self, into: &mut [u8]) -> Result<usize, Failed> {
        match self.input.read(into) {
            Ok(n) => Ok(n),
            Err(_) => Err(self.faults.failed()),
        }
    }
}

/// The streams that can be written to.
#[derive(Clone, Copy)]
enum Stream {
    Output(Stdout),
    Error(Stderr),
}

impl Stream {
    /// Gives how many bytes were taken from the front, 0 where the write failed.
    fn write(self, piece: &[u8]) -> usize
        ensures { result ≤ length piece.now }
    {
        let taken = match self {
            Stream::Output(mut output) => output.write(piece),
            Stream::Error(mut error) => error.write(piece),
        };
        taken.unwrap_or(0)
    }
}

/// Standard output or standard error.
#[derive(Drop)]
pub struct StdSink {
    stream: Stream,
    faults: FaultCount,
}

impl StdSink {
    /// Standard output, of which no write failed yet.
    pub fn output(stdout: Stdout) -> StdSink
        ensures { ⟦<StdSink as Sink>⟧.faults result ≡ 0 }
    {
        StdSink {
            stream: Stream::Output(stdout),
            faults: FaultCount::new(),
        }
    }

    /// Standard error, of which no write failed yet.
    pub fn error(stderr: Stderr) -> StdSink
        ensures { ⟦<StdSink as Sink>⟧.faults result ≡ 0 }
    {
        StdSink {
            stream: Stream::Error(stderr),
            faults: FaultCount::new(),
        }
    }
}

impl Sink for StdSink {
    ghost written = { λ _. None };

    ghost faults = { λ s. s.faults.count };

    // A stream that takes nothing of a piece has failed.
    fn write(&mut self, piece: &[u8]) -> Result<usize, Failed> {
        let taken = self.stream.write(piece);
        if taken == 0 {
            return Err(self.faults.failed());
        }
        Ok(taken)
    }
}

#[cfg(test)]
mod tests {
    use super::*;
    use std::test::Fail;

    #[test]
    fn standard_output_takes_bytes(rt: HostRuntime) -> Result<(), Fail> {
        let mut output = StdSink::output(rt.stdout());
        assert_eq!(rt; output.write(b"written to standard output\n"), Ok(27));
        let mut error = StdSink::error(rt.stderr());
        assert_eq!(rt; error.write(b"written to standard error\n"), Ok(26));
        Ok(())
    }

    #[test]
    fn standard_input_gives_bytes_or_ends(rt: HostRuntime) -> Result<(), Fail> {
        let mut input = StdSource::new(rt.stdin());
        let mut into = [0; 8];
        assert!(rt; input.read(&mut into)? <= 8);
        Ok(())
    }
}
