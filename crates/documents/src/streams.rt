// The standard streams as a source and sinks. Contracts don't know their bytes; these adapters are
// trusted to pass them on. If a reader's bytes are known, as in memory, they are known here too.
ghost use Rattle.std.specs.Prelude.{◌≡◌, None};

use crate::source::Source;
use oxc_protocol::{Failed, Sink};
use std::io::{ErrorKind, Read, Stderr, Stdin, Stdout, Write};

/// A reader of std whose failures are counted.
#[derive(Drop)]
pub struct ReaderSource<R: Read> {
    reader: R,
    faults: u64,
}

/// Standard input.
pub type StdinSource = ReaderSource<Stdin>;

impl<R: Read> ReaderSource<R> {
    /// A source over the reader, without failures so far.
    pub fn new(reader: R) -> ReaderSource<R>
        ensures kept { result.reader ≡ reader }
        ensures faults { result.faults ≡ 0 }
    {
        ReaderSource { reader, faults: 0 }
    }

    /// The reader.
    pub fn get_ref(&self) -> &R
        ensures { result.now ≡ self.now.reader }
    {
        &self.reader
    }

    /// The number of reads that failed, including those that were repeated.
    pub fn failures(&self) -> u64
        ensures { result ≡ self.now.faults }
    {
        self.faults
    }
}

impl<R: Read> Source for ReaderSource<R> {
    ghost left = { λ s. R.remaining s.reader };

    ghost faults = { λ s. s.faults };

    /// An interrupted read is counted and repeated; any other failure is counted and returned.
    fn read(&mut self, buf: &mut [u8]) -> Result<usize, Failed> {
        for _ in 0..u64::MAX {
            match self.reader.read(buf) {
                Ok(count) => return Ok(count),
                Err(e) if e.kind() == ErrorKind::Interrupted => {
                    self.faults = self.faults.saturating_add(1);
                }
                Err(_) => break,
            }
        }
        self.faults = self.faults.saturating_add(1);
        Err(Failed)
    }
}

/// A writer of std whose failures are counted, and which is flushed after each write. Contracts
/// don't know what it received, since a failed flush is an error although the bytes were taken.
#[derive(Drop)]
pub struct WriterSink<W: Write> {
    writer: W,
    faults: u64,
}

/// Standard output.
pub type StdoutSink = WriterSink<Stdout>;

/// Standard error.
pub type StderrSink = WriterSink<Stderr>;

impl<W: Write> WriterSink<W> {
    /// A sink over the writer, without failures so far.
    pub fn new(writer: W) -> WriterSink<W>
        ensures kept { result.writer ≡ writer }
        ensures faults { result.faults ≡ 0 }
    {
        WriterSink { writer, faults: 0 }
    }

    /// The writer.
    pub fn get_ref(&self) -> &W
        ensures { result.now ≡ self.now.writer }
    {
        &self.writer
    }

    /// The number of writes that failed, including those that were repeated.
    pub fn failures(&self) -> u64
        ensures { result ≡ self.now.faults }
    {
        self.faults
    }
}

impl<W: Write> Sink for WriterSink<W> {
    ghost received = { λ _. None };

    ghost faults = { λ s. s.faults };

    /// An interrupted write is counted and repeated. A write that takes nothing of a slice that
    /// isn't empty fails, and so does one whose flush fails.
    fn write(&mut self, bytes: &[u8]) -> Result<usize, Failed> {
        for _ in 0..u64::MAX {
            match self.writer.write(bytes) {
                Ok(count) if count > 0 || bytes.is_empty() => {
                    if self.writer.flush().is_ok() {
                        return Ok(count);
                    }
                    break;
                }
                Err(e) if e.kind() == ErrorKind::Interrupted => {
                    self.faults = self.faults.saturating_add(1);
                }
                _ => break,
            }
        }
        self.faults = self.faults.saturating_add(1);
        Err(Failed)
    }
}
