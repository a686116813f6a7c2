//! Runs a script about hyperplane arrangements: reads it from standard input and writes its answers to standard output.
#![tactic(auto)]

use hp_io::{StdinSource, StdoutSink};
use hp_top::{Status, run};
use std::env;
use std::io::ErrorKind;
use std::process::ExitCode;

/// The exit status where the system doesn't give the words of the command line. Those of a run are 0 to 6.
const NO_WORDS: u8 = 7;

fn main(rt: HostRuntime) -> ExitCode {
    let alloc = rt.alloc();
    let args = match env::args(&rt) {
        Ok(args) => args,
        Err(error) if error.kind() == ErrorKind::OutOfMemory => {
            return ExitCode::from(Status::OutOfMemory.code());
        }
        Err(_) => return ExitCode::from(NO_WORDS),
    };
    let Ok(words) = args.skip(1).collect::<Vec<String>>(alloc) else {
        return ExitCode::from(Status::OutOfMemory.code());
    };
    let mut source = StdinSource::new(rt.stdin());
    let mut sink = StdoutSink::new(rt.stdout());
    ExitCode::from(run(alloc, &words, &mut source, &mut sink).code())
}
