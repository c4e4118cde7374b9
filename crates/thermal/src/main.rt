//! The thermal bridge calculator: runs one command on standard input, and writes its text to standard output.
#![tactic(auto)]

use std::process::ExitCode;
use std::{env, io};
use tb_outside::{StdSink, StdSource};
use thermal_cli::run;

/// The system doesn't give the words as text.
const NOT_TEXT: u8 = 8;

/// No memory was found for the words.
const NO_MEMORY: u8 = 3;

// The words behind the program's name, or the exit code where they can't be had.
fn words(rt: &HostRuntime) -> Result<Vec<String>, u8> {
    let all = match env::args(rt) {
        Ok(all) => all,
        Err(error) if error.kind() == io::ErrorKind::OutOfMemory => return Err(NO_MEMORY),
        Err(_) => return Err(NOT_TEXT),
    };
    let mut words = Vec::new(rt.alloc());
    for word in all.skip(1) {
        if words.push(word).is_err() {
            return Err(NO_MEMORY);
        }
    }
    Ok(words)
}

fn main(rt: HostRuntime) -> ExitCode {
    let words = match words(&rt) {
        Ok(words) => words,
        Err(code) => return ExitCode::from(code),
    };
    let mut source = StdSource::new(rt.reader());
    let mut sink = StdSink::new(io::writer(&rt));
    let status = run(rt.alloc(), words.as_slice(), &mut source, &mut sink);
    ExitCode::from(status.code())
}
