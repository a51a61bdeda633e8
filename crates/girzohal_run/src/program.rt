// The whole program, over any source, store and sinks.
ghost use Rattle.std.specs.Prelude.{◌≡◌, ◌≤◌, ◌++◌, IfOk, length};
ghost use Rattle.std.specs.Io.KnownBytes.{Consumes};
ghost use Rattle.girzohal_run.specs.Run.{IsTold, IsUntouched, Means, Sends, Shows, device, limit};
ghost use Rattle.girzohal_run.specs.Run.{NeverComes, Since, device_since, texts_of};

use crate::fault::Fault;
use crate::live::run_lines;
use crate::making::{Made, make};
use crate::opening::{LIMIT, Opening, open};
use crate::status::Status;
use documents::{Reading, Source, read_all};
use girzohal_options::Asked;
use oxc_protocol::{Failed, Sink, write_all};
use source_store::Store;
use std::alloc::{AllocError, Global};

/// Reads an input to its end and writes its reports to `out` as `asked` says, with the sources of
/// a store. The rest of the input goes to `err`, and so does the line that says why nothing is
/// written. Drawings and annotations of lines are written as the lines come.
pub fn run<I: Source, S: Store, O: Sink, E: Sink>(
    alloc: Global,
    asked: &Asked,
    input: &mut I,
    store: &S,
    out: &mut O,
    err: &mut E,
) -> Status
    // What each status means. With `Clean` and `Reached` the output received exactly what is made
    // of the reports of the whole input, with the texts that the store gave; they are those that
    // it tells, if it tells any. `Reached` exactly if a report is at or above the level.
    ensures means { Means result asked.now (device I.left I.faults input.old input.new)
        (S.told store.now) (device O.received O.faults out.old out.new)
        (device E.received E.faults err.old err.new) }

    // If the input isn't lines that are written as they come: with every status but `Clean`,
    // `Reached` and `SinkFault` the output is unchanged, whether it tells what it received or not.
    ensures untouched { NeverComes asked.now (I.left input.old)
        → IsUntouched result out.old out.new }
{
    match open(alloc, asked, input) {
        Opening::Lines(bytes) => run_lines(alloc, asked, &bytes, input, store, out, err),
        Opening::Whole(bytes) => run_whole(alloc, asked, bytes, input, store, out, err),
        Opening::TooLong => fail(err, "girzohal: input too long\n", Status::InputTooLong),
        Opening::Fault => fail(err, "girzohal: input failed\n", Status::ReadFault),
        Opening::OutOfMemory => fail(err, "girzohal: out of memory\n", Status::OutOfMemory),
    }
}

/// The same for an input that is read whole, after these bytes, which were read already.
fn run_whole<I: Source, S: Store, O: Sink, E: Sink>(
    alloc: Global,
    asked: &Asked,
    bytes: Vec<u8>,
    input: &mut I,
    store: &S,
    out: &mut O,
    err: &mut E,
) -> Status
    requires { length bytes.items ≤ limit }
    ensures means { (since : Since)
        → Consumes since.bytes (I.left input.old) bytes.items → since.faults ≤ I.faults input.old
        → Means result asked.now (device_since I.left I.faults since input.new)
        (S.told store.now) (device O.received O.faults out.old out.new)
        (device E.received E.faults err.old err.new) }
    ensures untouched { IsUntouched result out.old out.new }
{
    match read_all(alloc, input, LIMIT - bytes.len()) {
        Reading::Whole(rest) => match with_rest(bytes, rest) {
            Ok(bytes) => show(alloc, asked, &bytes, store, out, err),
            Err(_) => fail(err, "girzohal: out of memory\n", Status::OutOfMemory),
        },
        Reading::TooLong => fail(err, "girzohal: input too long\n", Status::InputTooLong),
        Reading::Fault => fail(err, "girzohal: input failed\n", Status::ReadFault),
        Reading::OutOfMemory => fail(err, "girzohal: out of memory\n", Status::OutOfMemory),
    }
}

/// Bytes, and others after them.
fn with_rest(bytes: Vec<u8>, rest: Vec<u8>) -> Result<Vec<u8>, AllocError>
    ensures { IfOk result (λ all. all.items ≡ bytes.items ++ rest.items) }
{
    if bytes.is_empty() {
        return Ok(rest);
    }
    let mut all = bytes;
    all.extend_from_slice(&rest)?;
    Ok(all)
}

/// Writes what was asked for of the reports in these bytes.
fn show<S: Store, O: Sink, E: Sink>(
    alloc: Global,
    asked: &Asked,
    bytes: &[u8],
    store: &S,
    out: &mut O,
    err: &mut E,
) -> Status
    ensures shows { Shows result asked.now bytes.now (S.told store.now)
        (device O.received O.faults out.old out.new)
        (device E.received E.faults err.old err.new) }
    ensures untouched { IsUntouched result out.old out.new }
{
    match make(alloc, asked, bytes, store) {
        Ok(made) => send(&made, out, err),
        Err(Fault::NoForm(said)) => {
            tell(err, &said);
            Status::NoForm
        }
        Err(Fault::OutOfMemory) => fail(err, "girzohal: out of memory\n", Status::OutOfMemory),
    }
}

/// Writes what is made of an input.
fn send<O: Sink, E: Sink>(made: &Made, out: &mut O, err: &mut E) -> Status
    ensures { Sends result (texts_of made.now)
        (device O.received O.faults out.old out.new)
        (device E.received E.faults err.old err.new) }
{
    tell(err, &made.aside);
    match write_all(out, made.written.text.as_bytes()) {
        Ok(()) if made.written.reached => Status::Reached,
        Ok(()) => Status::Clean,
        Err(Failed) => Status::SinkFault,
    }
}

/// Writes why nothing is written, and returns the status.
pub(crate) fn fail<E: Sink>(err: &mut E, line: &str, status: Status) -> Status
    ensures told { IsTold (device E.received E.faults err.old err.new) line.now }
    ensures status { result ≡ status }
{
    tell(err, line.as_bytes());
    status
}

/// Writes bytes to a sink. A sink that fails received a first part of them; nothing else changes.
pub(crate) fn tell<E: Sink>(err: &mut E, bytes: &[u8])
    ensures { IsTold (device E.received E.faults err.old err.new) bytes.now }
{
    let _told = write_all(err, bytes);
}
