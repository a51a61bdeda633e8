//! The program `girzohal`: what linters and compilers found, drawn with the sources, or in the
//! forms that other programs read.
//!
//! [`run`](girzohal_run::run) is the whole run over any source, store and sinks. `main` reads the
//! arguments and calls it with the standard streams and the disk. The other modules:
//!
//! - `annotations`: those for GitHub, counted
//! - `filters`: the files of filters
//! - `help`: the help and the version
//! - `shapes`: the user's own forms of JSON
//! - `inputs`: several inputs
//! - `outputs`: several outputs
//! - `surroundings`: colors and width from the environment
#![tactic(auto)]

mod annotations;
mod filters;
mod help;
mod inputs;
mod outputs;
mod shapes;
mod surroundings;

use annotations::print_annotations;
use documents::{ReaderSource, Source, StderrSink, StdinSource, StdoutSink};
use filters::{open, read_filters};
use girzohal_options::{
    Asked, OutputForm, Program, Refusal, Request, ThemeChoice, message, read_words,
};
use girzohal_run::{Status, run};
use harmless::{Kind, harmless};
use help::{HELP, MORE, VERSION};
use inputs::inputs_in;
use outputs::{is_file, printed_form, write_outputs, write_several};
use shapes::read_shapes;
use source_store::DiskStore;
use std::alloc::Global;
use std::env;
use std::fs::Files;
use std::io::IsTerminal;
use std::process::ExitCode;
use surroundings::Surroundings;

fn main(rt: HostRuntime) -> ExitCode {
    let alloc = rt.alloc();
    let Ok(mut args) = env::args(&rt) else {
        return refuse(&rt, "an argument isn't UTF-8");
    };
    let _program = args.next();
    let Ok(words) = args.collect::<Vec<String>>(alloc) else {
        return ExitCode::from(Status::OutOfMemory.code());
    };
    match read_words(alloc, Program::Girzohal, &words) {
        Ok(Request::Help) => tell(&rt, HELP),
        Ok(Request::Version) => tell(&rt, VERSION),
        Ok(Request::Run(asked)) => obey(&rt, alloc, asked),
        Err(Refusal::Fault(fault)) => match message(alloc, Program::Girzohal, fault) {
            Ok(line) => refuse(&rt, line.as_str()),
            Err(_) => ExitCode::from(Status::OutOfMemory.code()),
        },
        Err(Refusal::OutOfMemory) => ExitCode::from(Status::OutOfMemory.code()),
    }
}

/// Writes the help or the version.
fn tell(rt: &HostRuntime, text: &str) -> ExitCode {
    match println!(rt; "{text}") {
        Ok(()) => ExitCode::SUCCESS,
        Err(_) => ExitCode::from(Status::SinkFault.code()),
    }
}

/// Runs with these options, over the streams and the disk of the system.
fn obey(rt: &HostRuntime, alloc: Global, mut asked: Asked) -> ExitCode {
    let around = Surroundings::of(rt, rt.stdout().is_terminal());
    let in_files = Surroundings::of(rt, false).theme(asked.theme);
    asked.theme = around.theme(asked.theme);
    asked.width = Some(around.width(asked.width));
    let Some(root) = folder_at(rt, alloc, asked.root.as_str()) else {
        return refuse_root(rt, alloc, asked.root.as_str());
    };
    if let Err(status) = read_shapes(rt, alloc, &mut asked) {
        return ExitCode::from(status.code());
    }
    asked.root = match root.clone() {
        Ok(folder) => folder,
        Err(_) => return ExitCode::from(Status::OutOfMemory.code()),
    };
    let store = DiskStore::new(rt, root, asked.anywhere);
    if let Err(status) = read_filters(rt, alloc, &mut asked, &store) {
        return ExitCode::from(status.code());
    }
    if asked.files.len() > 1 {
        return match inputs_in(rt, alloc, &asked.files) {
            Ok(inputs) => write_several(rt, alloc, &mut asked, in_files, &inputs, &store),
            Err(status) => ExitCode::from(status.code()),
        };
    }
    let Some(file) = take_file(&mut asked) else {
        tell_waiting(rt);
        let mut input = StdinSource::new(rt.stdin());
        return start(rt, alloc, &mut asked, in_files, &mut input, &store);
    };
    match open(rt, alloc, file.as_str()) {
        Ok(opened) => {
            let mut input = ReaderSource::new(opened);
            start(rt, alloc, &mut asked, in_files, &mut input, &store)
        }
        Err(status) => ExitCode::from(status.code()),
    }
}

/// Writes that the program waits for a terminal, if standard input is one.
pub(crate) fn tell_waiting(rt: &HostRuntime) {
    if rt.stdin().is_terminal() {
        let _waits = eprintln!(rt; "girzohal: reading from the terminal");
    }
}

/// Takes the file to read; none for standard input.
fn take_file(asked: &mut Asked) -> Option<String> {
    if asked.files.is_empty() {
        return None;
    }
    let file = asked.files.remove(0);
    if file.as_str() == "-" {
        None
    } else {
        Some(file)
    }
}

/// The absolute path of a folder, without links.
fn folder_at(rt: &HostRuntime, alloc: Global, path: &str) -> Option<String> {
    let real = rt.canonicalize(alloc, path).ok()?;
    match rt.metadata(real.as_path().as_str()) {
        Ok(about) if about.is_dir() => Some(real.into_string()),
        _ => None,
    }
}

/// Runs over an input.
fn start<I: Source>(
    rt: &HostRuntime,
    alloc: Global,
    asked: &mut Asked,
    in_files: ThemeChoice,
    input: &mut I,
    store: &DiskStore<'_, HostRuntime>,
) -> ExitCode {
    if asked.outputs.iter().any(|output| is_file(output)) {
        return write_outputs(rt, alloc, asked, in_files, input, store);
    }
    if let Some(to) = printed_form(asked) {
        asked.to = to;
    }
    if asked.to == OutputForm::Github {
        return print_annotations(rt, alloc, asked, input, store);
    }
    let mut out = StdoutSink::new(rt.stdout());
    let mut err = StderrSink::new(rt.stderr());
    let status = run(alloc, asked, input, store, &mut out, &mut err);
    ExitCode::from(status.code())
}

/// Writes that there is no such folder, with its name sanitized.
fn refuse_root(rt: &HostRuntime, alloc: Global, root: &str) -> ExitCode {
    let Ok(name) = harmless(alloc, Kind::Name, root) else {
        return ExitCode::from(Status::OutOfMemory.code());
    };
    let more = MORE;
    let _told = eprintln!(rt; "girzohal: --root: {name} isn't a folder\n{more}");
    ExitCode::from(Status::Usage.code())
}

/// Writes why the arguments are wrong.
fn refuse(rt: &HostRuntime, why: &str) -> ExitCode {
    let more = MORE;
    let _told = eprintln!(rt; "girzohal: {why}\n{more}");
    ExitCode::from(Status::Usage.code())
}
