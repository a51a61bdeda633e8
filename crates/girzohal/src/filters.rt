//! The files of filters: a diff and a baseline.
use changed_rows::{Diff, DiffError, Root, read_diff};
use documents::{ReaderSource, Reading, Source, StdinSource, read_all};
use girzohal_options::Asked;
use girzohal_run::{Baseline, Fault, LIMIT, Status, read_baseline, refusal_text, rules_of};
use harmless::{Kind, harmless};
use source_store::DiskStore;
use std::alloc::Global;
use std::fs;
use std::fs::Files;
use std::io::ErrorKind;

/// Reads the files of the filters that were asked for, whose names are compared from the root.
pub(crate) fn read_filters(
    rt: &HostRuntime,
    alloc: Global,
    asked: &mut Asked,
    store: &DiskStore<'_, HostRuntime>,
) -> Result<(), Status> {
    let Ok(names) = Root::at(alloc, asked.root.as_str()) else {
        return Err(Status::OutOfMemory);
    };
    let diff = diff_in(rt, alloc, asked)?;
    let baseline = baseline_in(rt, alloc, asked, &names, store)?;
    match rules_of(alloc, asked, names, diff, baseline) {
        Ok(rules) if rules.is_given() => asked.rules = Some(rules),
        Ok(_) => {}
        Err(_) => return Err(Status::OutOfMemory),
    }
    Ok(())
}

/// The diff, if there is one.
fn diff_in(rt: &HostRuntime, alloc: Global, asked: &Asked) -> Result<Option<Diff>, Status> {
    let Some(name) = asked.changed.as_deref() else {
        return Ok(None);
    };
    let bytes = bytes_of(rt, alloc, name, LIMIT)?;
    match read_diff(alloc, &bytes, asked.strip) {
        Ok(diff) => Ok(Some(diff)),
        Err(DiffError::OutOfMemory) => Err(Status::OutOfMemory),
        Err(DiffError::Refused(refusal)) => match refusal_text(alloc, refusal) {
            Ok(why) => Err(refuse(rt, alloc, name, ": ", why.as_str(), Status::NoForm)),
            Err(_) => Err(Status::OutOfMemory),
        },
    }
}

/// The findings of the baseline, if there is one.
fn baseline_in(
    rt: &HostRuntime,
    alloc: Global,
    asked: &mut Asked,
    names: &Root,
    store: &DiskStore<'_, HostRuntime>,
) -> Result<Option<Baseline>, Status> {
    let Some(name) = asked.baseline.as_deref() else {
        return Ok(None);
    };
    let Ok(name) = String::from_str(alloc, name) else {
        return Err(Status::OutOfMemory);
    };
    let bytes = bytes_of(rt, alloc, name.as_str(), LIMIT)?;
    match read_baseline(alloc, asked, names, &bytes, store) {
        Ok(baseline) => Ok(Some(baseline)),
        Err(Fault::OutOfMemory) => Err(Status::OutOfMemory),
        Err(Fault::NoForm(said)) => {
            let said = String::from_utf8_lossy(alloc, &said);
            if let Ok(said) = said {
                let _told = eprint!(rt; "{said}");
            }
            Err(refuse(
                rt,
                alloc,
                name.as_str(),
                " ",
                "isn't read as a baseline",
                Status::NoForm,
            ))
        }
    }
}

/// The bytes of a file, at most `limit`; `-` is standard input.
pub(crate) fn bytes_of(
    rt: &HostRuntime,
    alloc: Global,
    name: &str,
    limit: usize,
) -> Result<Vec<u8>, Status> {
    if name == "-" {
        return whole(rt, alloc, name, limit, &mut StdinSource::new(rt.stdin()));
    }
    let opened = open(rt, alloc, name)?;
    whole(rt, alloc, name, limit, &mut ReaderSource::new(opened))
}

/// Opens a file, or writes why it isn't read.
pub(crate) fn open(
    rt: &HostRuntime,
    alloc: Global,
    name: &str,
) -> Result<<HostRuntime as Files>::File, Status> {
    if let Ok(about) = rt.metadata(name) {
        if about.is_dir() {
            return Err(refuse(rt, alloc, name, " ", "is a folder", Status::ReadFault));
        }
    }
    match fs::open(rt, name) {
        Ok(opened) => Ok(opened),
        Err(e) => {
            let why = match e.kind() {
                ErrorKind::NotFound => "isn't there",
                ErrorKind::PermissionDenied => "may not be read",
                _ => "can't be read",
            };
            Err(refuse(rt, alloc, name, " ", why, Status::ReadFault))
        }
    }
}

/// All bytes of an input.
fn whole<I: Source>(
    rt: &HostRuntime,
    alloc: Global,
    name: &str,
    limit: usize,
    input: &mut I,
) -> Result<Vec<u8>, Status> {
    match read_all(alloc, input, limit) {
        Reading::Whole(bytes) => Ok(bytes),
        Reading::TooLong => Err(refuse(rt, alloc, name, " ", "is too long", Status::InputTooLong)),
        Reading::Fault => Err(refuse(rt, alloc, name, " ", "can't be read", Status::ReadFault)),
        Reading::OutOfMemory => Err(Status::OutOfMemory),
    }
}

/// Writes why a file isn't read or written, with its name sanitized.
pub(crate) fn refuse(
    rt: &HostRuntime,
    alloc: Global,
    name: &str,
    between: &str,
    why: &str,
    status: Status,
) -> Status {
    let Ok(name) = harmless(alloc, Kind::Name, name) else {
        return Status::OutOfMemory;
    };
    let _told = eprintln!(rt; "girzohal: {name}{between}{why}");
    status
}
