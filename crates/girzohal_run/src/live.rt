// Lines that are written as they come.
ghost use Rattle.std.specs.Prelude.{◌≡◌, ◌≤◌, ◌++◌, ℕ, List, Option, map, true};
ghost use Rattle.std.specs.Io.KnownBytes.{Consumes, IsAtEnd};
ghost use Rattle.line_shapes.specs.Shape.{shape_parts};
ghost use Rattle.drawn_lines.specs.Lines.{shapes_of as shapes_meant};
ghost use Rattle.girzohal_options.specs.declared.Asked.{Asked as AskedFor};
ghost use Rattle.girzohal_run.specs.Told.{Told};
ghost use Rattle.girzohal_run.specs.Run.{Device, IsTold, Means, Since, Stays, comes, device};
ghost use Rattle.girzohal_run.specs.Run.{device_since};
ghost use Rattle.girzohal_run.specs.Live.{Came, Goes, Hears, Went, device_on, quiet_of};

use crate::opening::{CHUNK, LIMIT};
use crate::program::fail;
use crate::status::Status;
use documents::Source;
use drawn_lines::{Come, Coming, Ended, shapes_of};
use girzohal_options::Asked;
use line_shapes::shape::Shape;
use oxc_protocol::{Failed, Sink, write_all};
use source_store::Store;
use std::alloc::Global;

/// The state of an input that is written as it comes.
#[derive(Drop)]
pub(crate) struct Live {
    /// The reader of what is to come.
    coming: Coming,
    /// How many bytes came since the last known block.
    quiet: usize,
    /// Whether the error output failed. It then gets nothing more: otherwise it could miss a part
    /// and receive the rest, and no contract could say what it has.
    deaf: bool,
}

/// Writes an input as it comes, after these bytes, which were read already.
pub(crate) fn run_lines<I: Source, S: Store, O: Sink, E: Sink>(
    alloc: Global,
    asked: &Asked,
    bytes: &[u8],
    input: &mut I,
    store: &S,
    out: &mut O,
    err: &mut E,
) -> Status
    requires { (more : List ℕ) → comes asked.now (bytes.now ++ more) ≡ true }
    ensures { (since : Since)
        → Consumes since.bytes (I.left input.old) bytes.now → since.faults ≤ I.faults input.old
        → Means result asked.now (device_since I.left I.faults since input.new)
        (S.told store.now) (device O.received O.faults out.old out.new)
        (device E.received E.faults err.old err.new) }
{
    let shapes = match shapes_of(alloc, asked) {
        Ok(shapes) => shapes,
        Err(_) => return fail(err, "girzohal: out of memory\n", Status::OutOfMemory),
    };
    match begin(alloc, asked, &shapes, store, bytes, out, err) {
        Ok(live) => draw_all(alloc, asked, &shapes, store, live, input, out, err),
        Err(status) => status,
    }
}

/// Writes what is known of the first bytes.
fn begin<S: Store, O: Sink, E: Sink>(
    alloc: Global,
    asked: &Asked,
    shapes: &[Shape<'_>],
    store: &S,
    bytes: &[u8],
    out: &mut O,
    err: &mut E,
) -> Result<Live, Status>
    requires shapes { map shape_parts shapes.now ≡ shapes_meant asked.now }
    requires lines { (more : List ℕ) → comes asked.now (bytes.now ++ more) ≡ true }
    ensures { (input : Device) → Consumes input.before input.now bytes.now
        → Went result (S.told store.now) asked.now input
        (device O.received O.faults out.old out.new)
        (device E.received E.faults err.old err.new) }
{
    match Coming::new(alloc).with_bytes(alloc, asked, shapes, store, bytes) {
        Ok(come) => write(come, false, bytes.len(), out, err),
        Err(_) => Err(out_of_memory(false, err)),
    }
}

/// Writes the rest of an input as it comes.
fn draw_all<I: Source, S: Store, O: Sink, E: Sink>(
    alloc: Global,
    asked: &Asked,
    shapes: &[Shape<'_>],
    store: &S,
    live: Live,
    input: &mut I,
    out: &mut O,
    err: &mut E,
) -> Status
    requires { map shape_parts shapes.now ≡ shapes_meant asked.now }
    ensures { (taken wrote heard : Since)
        → Goes (S.told store.now) asked.now (device_since I.left I.faults taken input.old)
        (device_since O.received O.faults wrote out.old)
        (device_since E.received E.faults heard err.old) live → taken.faults ≤ I.faults input.old
        → Means result asked.now (device_since I.left I.faults taken input.new)
        (S.told store.now) (device_since O.received O.faults wrote out.new)
        (device_since E.received E.faults heard err.new) }
{
    let mut live = live;
    let mut chunk = [0u8; CHUNK];
    for _ in 0..u64::MAX {
        match input.read(&mut chunk) {
            Err(Failed) => {
                return say(
                    live.deaf,
                    err,
                    "girzohal: input failed\n",
                    Status::ReadFault,
                );
            }
            Ok(0) => return end(alloc, asked, shapes, store, live, out, err),
            Ok(count) => match go_on(alloc, asked, shapes, store, live, &chunk[..count], out, err) {
                Ok(next) => live = next,
                Err(status) => return status,
            },
        }
    }
    out_of_memory(live.deaf, err)
}

/// Takes the bytes that came, and writes what is known now.
fn go_on<S: Store, O: Sink, E: Sink>(
    alloc: Global,
    asked: &Asked,
    shapes: &[Shape<'_>],
    store: &S,
    live: Live,
    bytes: &[u8],
    out: &mut O,
    err: &mut E,
) -> Result<Live, Status>
    requires { map shape_parts shapes.now ≡ shapes_meant asked.now }
    ensures { (input : Device) (next : Option (List ℕ)) (faults : ℕ) (wrote heard : Since)
        → Goes (S.told store.now) asked.now input
        (device_since O.received O.faults wrote out.old)
        (device_since E.received E.faults heard err.old) live
        → Consumes input.now next bytes.now
        → Went result (S.told store.now) asked.now (device_on input next faults)
        (device_since O.received O.faults wrote out.new)
        (device_since E.received E.faults heard err.new) }
{
    let Live {
        coming,
        quiet,
        deaf,
    } = live;
    match coming.with_bytes(alloc, asked, shapes, store, bytes) {
        Ok(come) => write(come, deaf, quiet.saturating_add(bytes.len()), out, err),
        Err(_) => Err(out_of_memory(deaf, err)),
    }
}

/// Writes what is known now: first the text for the error output, then that for the output.
/// `quiet` is how many bytes came since the last known block.
fn write<O: Sink, E: Sink>(
    come: Come,
    deaf: bool,
    quiet: usize,
    out: &mut O,
    err: &mut E,
) -> Result<Live, Status>
    ensures { (told : Told) (asked : AskedFor) (input : Device) (wrote heard : Since)
        → Came told asked input (device_since O.received O.faults wrote out.old)
        (device_since E.received E.faults heard err.old) come deaf quiet
        → Went result told asked input (device_since O.received O.faults wrote out.new)
        (device_since E.received E.faults heard err.new) }
{
    let quiet = quiet_behind(&come, quiet);
    let Come {
        coming,
        text,
        aside,
        known: _,
    } = come;
    let deaf = hear(deaf, err, aside.as_str());
    let live = Live {
        coming,
        quiet,
        deaf,
    };
    match write_all(out, text.as_bytes()) {
        Ok(()) => limited(live, err),
        Err(Failed) => Err(Status::SinkFault),
    }
}

/// How many bytes came since the last known block, which may be the one that came now.
fn quiet_behind(come: &Come, quiet: usize) -> usize
    ensures { result ≡ quiet_of come.now quiet }
{
    if come.known || !come.text.is_empty() || !come.aside.is_empty() {
        0
    } else {
        quiet
    }
}

/// Goes on, unless more than the limit came since the last known block.
fn limited<E: Sink>(live: Live, err: &mut E) -> Result<Live, Status>
    ensures { (told : Told) (asked : AskedFor) (input out : Device) (heard : Since)
        → Goes told asked input out (device_since E.received E.faults heard err.old) live
        → Went result told asked input out (device_since E.received E.faults heard err.new) }
{
    if live.quiet > LIMIT {
        return Err(say(
            live.deaf,
            err,
            "girzohal: input too long\n",
            Status::InputTooLong,
        ));
    }
    Ok(live)
}

/// Writes what is left at the end of the input.
fn end<S: Store, O: Sink, E: Sink>(
    alloc: Global,
    asked: &Asked,
    shapes: &[Shape<'_>],
    store: &S,
    live: Live,
    out: &mut O,
    err: &mut E,
) -> Status
    requires { map shape_parts shapes.now ≡ shapes_meant asked.now }
    ensures { (input : Device) (wrote heard : Since) → Goes (S.told store.now) asked.now input
        (device_since O.received O.faults wrote out.old)
        (device_since E.received E.faults heard err.old) live → IsAtEnd input.now
        → Means result asked.now input (S.told store.now)
        (device_since O.received O.faults wrote out.new)
        (device_since E.received E.faults heard err.new) }
{
    let Live {
        coming,
        quiet: _,
        deaf,
    } = live;
    let Ended {
        text,
        aside,
        reached,
    } = match coming.ended(alloc, asked, shapes, store) {
        Ok(ended) => ended,
        Err(_) => return out_of_memory(deaf, err),
    };
    let _deaf = hear(deaf, err, aside.as_str());
    match write_all(out, text.as_bytes()) {
        Ok(()) if reached => Status::Reached,
        Ok(()) => Status::Clean,
        Err(Failed) => Status::SinkFault,
    }
}

/// Writes a text to the error output, unless it failed before, and returns whether it has failed.
fn hear<E: Sink>(deaf: bool, err: &mut E, text: &str) -> bool
    ensures { (heard : Since) (before : List ℕ)
        → Hears deaf (device_since E.received E.faults heard err.old) before
        → Hears result (device_since E.received E.faults heard err.new) (before ++ text.now) }
{
    if deaf {
        return true;
    }
    match write_all(err, text.as_bytes()) {
        Ok(()) => false,
        Err(Failed) => true,
    }
}

/// Writes to the error output why nothing more is written, unless it failed before, and returns
/// the status.
fn say<E: Sink>(deaf: bool, err: &mut E, line: &str, status: Status) -> Status
    ensures told { (heard : Since) (before : List ℕ)
        → Hears deaf (device_since E.received E.faults heard err.old) before
        → IsTold (device_since E.received E.faults heard err.new) (before ++ line.now) }
    ensures status { result ≡ status }
{
    let _deaf = hear(deaf, err, line);
    status
}

/// Writes that there is no memory left.
fn out_of_memory<E: Sink>(deaf: bool, err: &mut E) -> Status
    ensures { (told : Told) (asked : AskedFor) (input out : Device) (heard : Since)
        → Stays told asked input out
        (Hears deaf (device_since E.received E.faults heard err.old))
        → Means result asked input told out (device_since E.received E.faults heard err.new) }
{
    say(deaf, err, "girzohal: out of memory\n", Status::OutOfMemory)
}
