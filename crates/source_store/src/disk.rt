// The files of the system as a store. It promises nothing of their texts: this code is trusted to
// pass the bytes on.
use crate::fetched::{Fetched, Store};
use crate::place::{is_line, locate};
use found_reports::Lack;
use std::alloc::Global;
use std::fs;
use std::fs::{Files, OpenFile};
use std::io::{ErrorKind, Read};

/// The most bytes of a file that are read, 64 MiB.
const LIMIT: usize = 67_108_864;

const CHUNK: usize = 65_536;

/// Files below a folder.
#[derive(Drop)]
pub struct DiskStore<'a, R: Files> {
    rt: &'a R,
    root: String,
    anywhere: bool,
}

impl<'a, R: Files> DiskStore<'a, R> {
    /// A store of the files below `root`, an absolute path without links, or of all files.
    pub fn new(rt: &'a R, root: String, anywhere: bool) -> DiskStore<'a, R> {
        DiskStore { rt, root, anywhere }
    }
}

impl<R: Files> Store for DiskStore<'_, R> {
    ghost use Rattle.std.specs.Prelude.{None};

    ghost told = { λ _ _. None };

    fn fetch(&self, alloc: Global, path: &str) -> Fetched {
        match locate(alloc, self.root.as_str(), path, self.anywhere) {
            Ok(Some(found)) => self.read(alloc, found.as_str()),
            Ok(None) => self.read_by_link(alloc, path),
            Err(_) => Fetched::OutOfMemory,
        }
    }
}

impl<R: Files> DiskStore<'_, R> {
    /// Reads a file, unless a link leads out of the root.
    fn read(&self, alloc: Global, path: &str) -> Fetched {
        match self.rt.canonicalize(alloc, path) {
            Ok(real) if self.anywhere || real.as_path().starts_with(self.root.as_str()) => {
                read_plain(self.rt, alloc, real.as_path().as_str())
            }
            Ok(_) => Fetched::Lacking(Lack::Outside),
            Err(e) => lacking(e.kind()),
        }
    }

    /// Reads a file whose absolute path is elsewhere as written, but in the root by a link: a
    /// folder may have two paths.
    fn read_by_link(&self, alloc: Global, path: &str) -> Fetched {
        if !path.starts_with('/') || !is_line(path) {
            return Fetched::Lacking(Lack::Outside);
        }
        match self.rt.canonicalize(alloc, path) {
            Ok(real) if real.as_path().starts_with(self.root.as_str()) => {
                read_plain(self.rt, alloc, real.as_path().as_str())
            }
            Err(e) if e.kind() == ErrorKind::OutOfMemory => Fetched::OutOfMemory,
            _ => Fetched::Lacking(Lack::Outside),
        }
    }
}

/// Reads a plain file that isn't too long.
fn read_plain<R: Files>(rt: &R, alloc: Global, path: &str) -> Fetched {
    match rt.metadata(path) {
        Ok(about) if !about.is_file() => Fetched::Lacking(Lack::NoFile),
        Ok(about) if about.len() > LIMIT as u64 => Fetched::Lacking(Lack::TooLong),
        Ok(_) => read_file(rt, alloc, path),
        Err(e) => lacking(e.kind()),
    }
}

/// Why a call of the system failed.
fn lacking(kind: ErrorKind) -> Fetched {
    match kind {
        ErrorKind::NotFound | ErrorKind::NotADirectory => Fetched::Lacking(Lack::Missing),
        ErrorKind::OutOfMemory => Fetched::OutOfMemory,
        _ => Fetched::Lacking(Lack::Unreadable),
    }
}

/// Reads a plain file to its end.
fn read_file<R: Files>(rt: &R, alloc: Global, path: &str) -> Fetched {
    let mut file = match fs::open(rt, path) {
        Ok(file) => file,
        Err(e) => return lacking(e.kind()),
    };
    let mut bytes: Vec<u8> = Vec::new(alloc);
    let mut chunk = [0u8; CHUNK];
    for _ in 0..u64::MAX {
        match file.read(&mut chunk) {
            Ok(0) => {
                return match String::from_utf8(bytes) {
                    Ok(text) => Fetched::Text(text),
                    Err(_) => Fetched::Lacking(Lack::NoText),
                };
            }
            Ok(count) => {
                if count > LIMIT.saturating_sub(bytes.len()) {
                    return Fetched::Lacking(Lack::TooLong);
                }
                if bytes.extend_from_slice(&chunk[..count]).is_err() {
                    return Fetched::OutOfMemory;
                }
            }
            Err(e) if e.kind() == ErrorKind::Interrupted => {}
            Err(e) => return lacking(e.kind()),
        }
    }
    Fetched::Lacking(Lack::Unreadable)
}
