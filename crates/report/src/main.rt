//! The program `report`: reads a document of source files and reports from standard input, writes
//! their drawing to standard output, and has the status as exit status.
//!
//! [`run`] is the whole program over any source and sinks; `main` gives it the arguments and the
//! standard streams.
#![tactic(auto)]

ghost use Rattle.std.specs.Prelude.{◌≡◌};
ghost use Rattle.std.specs.Process.{exit_status};
ghost use Rattle.report_run.specs.Code.{code_of};

use documents::{StderrSink, StdinSource, StdoutSink};
use report_run::{Status, run};
use std::env;
use std::io::ErrorKind;
use std::process::ExitCode;

/// The exit status if the system gave no arguments, for another cause than memory.
const NO_WORDS: u8 = 9;

fn main(rt: HostRuntime) -> ExitCode {
    let alloc = rt.alloc();
    let mut args = match env::args(&rt) {
        Ok(args) => args,
        // (out of memory for the arguments: nothing is read or written)
        Err(e) if e.kind() == ErrorKind::OutOfMemory => return exit(Status::OutOfMemory),
        Err(_) => return ExitCode::from(NO_WORDS),
    };
    let _program = args.next();
    let Ok(words) = args.collect::<Vec<String>>(alloc) else {
        return exit(Status::OutOfMemory);
    };
    let mut input = StdinSource::new(rt.stdin());
    let mut out = StdoutSink::new(rt.stdout());
    let mut err = StderrSink::new(rt.stderr());
    exit(run(alloc, &words, &mut input, &mut out, &mut err))
}

/// The exit status of a run.
fn exit(status: Status) -> ExitCode
    ensures { exit_status result ≡ code_of status }
{
    ExitCode::from(status.code())
}
