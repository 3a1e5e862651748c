//! The program `xsfq`: the words, the standard streams and the exit code around the top call of `xsfq_cli`.
#![tactic(auto)]

use buffered_sink::BufferedSink;
use byte_ports::{StdSink, StdSource};
use std::env;
use std::io::{Error, ErrorKind};
use std::process::ExitCode;
use xsfq_cli::{Outcome, run};

/// The exit code where the words cannot be read, as where one is no UTF-8. No outcome has it.
const UNREADABLE_WORDS: u8 = 11;

/// The words after the program's name.
fn words(rt: &HostRuntime) -> Result<Vec<String>, Error> {
    let words = env::args(rt)?.skip(1).collect(rt.alloc())?;
    Ok(words)
}

fn main(rt: HostRuntime) -> ExitCode {
    let words: Vec<String> = match words(&rt) {
        Ok(words) => words,
        Err(error) if error.kind() == ErrorKind::OutOfMemory => return ExitCode::from(
            Outcome::NoMemory.code(),
        ),
        Err(_) => return ExitCode::from(UNREADABLE_WORDS),
    };
    let mut input = StdSource::new(rt.stdin());
    // Many short pieces are written by one system call. After a write that failed there is none.
    let mut output = BufferedSink::new(rt.alloc(), StdSink::new(rt.stdout()));
    let mut notes = StdSink::new(rt.stderr());
    let outcome = run(rt.alloc(), &words, &mut input, &mut output, &mut notes);
    ExitCode::from(outcome.code())
}
