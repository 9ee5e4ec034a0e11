//! The program: hands its words and the standard streams to the server, and ends with the server's status.
#![tactic(auto)]

use od_io::{RegexMaker, StdSink, StdSource, write_whole};
use od_serve::odinson;
use std::process::ExitCode;
use std::{env, io};

/// The program's words, without its own name.
fn words(rt: &HostRuntime) -> io::Result<Vec<String>> {
    let mut words = Vec::new(rt.alloc());
    for word in env::args(rt)?.skip(1) {
        words.push(word)?;
    }
    Ok(words)
}

fn main(rt: HostRuntime) -> ExitCode {
    let mut diag = StdSink::error(rt.stderr());
    let words = match words(&rt) {
        Ok(words) => words,
        Err(error) if error.kind() == io::ErrorKind::OutOfMemory => {
            let _ = write_whole(&mut diag, "odinson: no memory\n".as_bytes());
            return ExitCode::from(9);
        }
        // A word that is not UTF-8 is none of the program's; neither is the empty list of words.
        Err(_) => Vec::new(rt.alloc()),
    };
    let source = StdSource::new(rt.stdin());
    let sink = StdSink::output(rt.stdout());
    let maker = RegexMaker::new(rt.alloc());
    let ended = odinson(rt.alloc(), words.as_slice(), source, sink, diag, maker);
    ExitCode::from(ended.status)
}
