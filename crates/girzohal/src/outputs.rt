// Several outputs.
use crate::annotations::tell_annotations;
use crate::filters::refuse;
use documents::{Source, StderrSink, StdoutSink};
use girzohal_options::{Asked, Output, OutputForm, ThemeChoice};
use girzohal_run::{Input, Made, Status, Wanted, run_each, run_several};
use oxc_protocol::write_all;
use source_store::{DiskStore, Text, WriteError, replace_all};
use std::alloc::{AllocError, Global};
use std::process::ExitCode;

/// Whether an output is a file, and not standard output.
pub(crate) fn is_file(output: &Output) -> bool {
    output.path.as_str() != "-"
}

/// The form of standard output, if anything is written there.
pub(crate) fn printed_form(asked: &Asked) -> Option<OutputForm> {
    if asked.prints {
        return Some(asked.to);
    }
    for output in &asked.outputs {
        if !is_file(output) {
            return Some(output.to);
        }
    }
    None
}

/// Makes all outputs of an input, and then writes them: first the files, then standard output.
pub(crate) fn write_outputs<I: Source>(
    rt: &HostRuntime,
    alloc: Global,
    asked: &mut Asked,
    in_files: ThemeChoice,
    input: &mut I,
    store: &DiskStore<'_, HostRuntime>,
) -> ExitCode {
    let printed = printed_form(asked);
    let Ok(wanted) = wanted_of(alloc, asked, printed, in_files) else {
        return ExitCode::from(Status::OutOfMemory.code());
    };
    let mut err = StderrSink::new(rt.stderr());
    match run_each(alloc, asked, &wanted, input, store, &mut err) {
        Ok(made) => write_made(rt, alloc, asked, printed, &wanted, &made),
        Err(status) => ExitCode::from(status.code()),
    }
}

/// Makes all outputs of the findings of several inputs, and then writes them: first the files, then
/// standard output.
pub(crate) fn write_several(
    rt: &HostRuntime,
    alloc: Global,
    asked: &mut Asked,
    in_files: ThemeChoice,
    inputs: &[Input],
    store: &DiskStore<'_, HostRuntime>,
) -> ExitCode {
    let printed = printed_form(asked);
    let Ok(wanted) = wanted_of(alloc, asked, printed, in_files) else {
        return ExitCode::from(Status::OutOfMemory.code());
    };
    let mut err = StderrSink::new(rt.stderr());
    match run_several(alloc, asked, &wanted, inputs, store, &mut err) {
        Ok(made) => write_made(rt, alloc, asked, printed, &wanted, &made),
        Err(status) => ExitCode::from(status.code()),
    }
}

/// The outputs: that on standard output first.
fn wanted_of(
    alloc: Global,
    asked: &Asked,
    printed: Option<OutputForm>,
    in_files: ThemeChoice,
) -> Result<Vec<Wanted>, AllocError> {
    let mut wanted = Vec::new(alloc);
    if let Some(to) = printed {
        let theme = asked.theme;
        wanted.push(Wanted { to, theme })?;
    }
    for output in &asked.outputs {
        if is_file(output) {
            wanted.push(Wanted {
                to: output.to,
                theme: in_files,
            })?;
        }
    }
    Ok(wanted)
}

/// Writes what is made for each output, that on standard output first.
fn write_made(
    rt: &HostRuntime,
    alloc: Global,
    asked: &Asked,
    printed: Option<OutputForm>,
    wanted: &[Wanted],
    made: &[Made],
) -> ExitCode {
    let (first, others) = match (printed, made) {
        (Some(_), [first, others @ ..]) => (Some(first), others),
        _ => (None, made),
    };
    let Ok(texts) = texts_of(alloc, asked, others) else {
        return ExitCode::from(Status::OutOfMemory.code());
    };
    match replace_all(alloc, rt, &texts) {
        Ok(()) => {}
        Err(WriteError::File(path)) => {
            let why = "can't be written";
            let status = refuse(rt, alloc, path, " ", why, Status::SinkFault);
            return ExitCode::from(status.code());
        }
        Err(WriteError::OutOfMemory) => return ExitCode::from(Status::OutOfMemory.code()),
    }
    if let Some(first) = first {
        let mut out = StdoutSink::new(rt.stdout());
        if write_all(&mut out, first.text().as_bytes()).is_err() {
            return ExitCode::from(Status::SinkFault.code());
        }
    }
    tell_annotations(rt, wanted, made);
    let status = if made.iter().any(|it| it.reached()) {
        Status::Reached
    } else {
        Status::Clean
    };
    ExitCode::from(status.code())
}

/// The files with their texts.
fn texts_of<'a>(
    alloc: Global,
    asked: &'a Asked,
    made: &'a [Made],
) -> Result<Vec<Text<'a>>, AllocError> {
    let mut texts = Vec::new(alloc);
    let mut rest = made;
    for output in &asked.outputs {
        if is_file(output) {
            if let [made, more @ ..] = rest {
                let path = output.path.as_str();
                texts.push(Text {
                    path,
                    text: made.text(),
                })?;
                rest = more;
            }
        }
    }
    Ok(texts)
}
