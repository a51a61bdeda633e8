// Runs of `report` over devices that fail.
use documents::MemorySource;
use oxc_protocol::MemorySink;
use report_run::{Status, run};
use std::alloc::{AllocError, Global};

// The devices of a run: the most bytes of a read and of a write to `out` and `err`, and the calls
// that fail.
#[derive(Clone, Copy)]
struct Devices<'a> {
    read_most: usize,
    read_failing: &'a [u64],
    write_most: usize,
    write_failing: &'a [u64],
    err_most: usize,
    err_failing: &'a [u64],
}

const WORKING: Devices<'static> = Devices {
    read_most: 4096,
    read_failing: &[],
    write_most: 4096,
    write_failing: &[],
    err_most: 4096,
    err_failing: &[],
};

fn source_of(
    alloc: Global,
    input: &str,
    devices: &Devices<'_>,
) -> Result<MemorySource, AllocError> {
    let bytes = input.as_bytes().to_vec(alloc)?;
    let failing = devices.read_failing.to_vec(alloc)?;
    Ok(MemorySource::new(bytes, devices.read_most.max(1), failing))
}

fn sink_of(alloc: Global, most: usize, failing: &[u64]) -> Result<MemorySink, AllocError> {
    MemorySink::new(alloc, 4096, most.max(1), failing.to_vec(alloc)?)
}

// Whether a run with no words ends so: its status, and what `out` and `err` received.
fn ends(
    alloc: Global,
    input: &str,
    devices: &Devices<'_>,
    status: Status,
    written: &[u8],
    said: &str,
) -> bool {
    let Ok(mut source) = source_of(alloc, input, devices) else {
        return false;
    };
    let Ok(mut out) = sink_of(alloc, devices.write_most, devices.write_failing) else {
        return false;
    };
    let Ok(mut err) = sink_of(alloc, devices.err_most, devices.err_failing) else {
        return false;
    };
    run(alloc, &[], &mut source, &mut out, &mut err) == status
        && out.received() == written
        && err.received() == said.as_bytes()
}

const DOCUMENT: &str = concat!(
    "{\"files\":[{\"name\":\"a.js\",\"source\":\"foo\\nbar\\nbaz\"}],",
    "\"reports\":[{\"file\":0,\"message\":\"Oops\",\"labels\":[{\"start\":[2,1],",
    "\"end\":[2,4],\"text\":\"here\"}]}]}",
);

const DRAWING: &str = concat!(
    "\n",
    "  x Oops\n",
    "   ,-[a.js:2:1]\n",
    " 1 | foo\n",
    " 2 | bar\n",
    "   : ^|^\n",
    "   :  `-- here\n",
    " 3 | baz\n",
    "   `----\n",
);

// Whether a run whose output takes a byte a call, and fails at this one, has written what came
// before; there is a call for each byte.
fn stops_writing(alloc: Global, call: usize) -> bool {
    let failing = [call as u64];
    let devices = Devices {
        write_most: 1,
        write_failing: &failing,
        ..WORKING
    };
    let Some(left) = DRAWING.as_bytes().get(..call) else {
        return false;
    };
    let (status, said) = if call < DRAWING.len() {
        (Status::SinkFault, "report: output failed\n")
    } else {
        (Status::Done, "")
    };
    ends(alloc, DOCUMENT, &devices, status, left, said)
}

#[test]
fn a_failing_sink_received_what_was_written_before(rt: HostRuntime) {
    for call in 0..=DRAWING.len() {
        assert!(rt; stops_writing(rt.alloc(), call), "at call {call}");
    }
}

// Whether a run whose input gives a byte a call, and fails at this one, writes nothing; there is a
// call for each byte, and one that meets the end.
fn stops_reading(alloc: Global, call: usize) -> bool {
    let failing = [call as u64];
    let devices = Devices {
        read_most: 1,
        read_failing: &failing,
        ..WORKING
    };
    let (status, written, said) = if call <= DOCUMENT.len() {
        (Status::ReadFault, "", "report: input failed\n")
    } else {
        (Status::Done, DRAWING, "")
    };
    ends(alloc, DOCUMENT, &devices, status, written.as_bytes(), said)
}

#[test]
fn a_failing_source_gives_nothing(rt: HostRuntime) {
    for call in 0..=DOCUMENT.len() + 1 {
        assert!(rt; stops_reading(rt.alloc(), call), "at call {call}");
    }
}

const REFUSED: &str = concat!(
    "{\"files\":[{\"name\":\"a\",\"source\":\"ab\"}],",
    "\"reports\":[{\"file\":0,\"message\":\"m\",\"labels\":[{\"start\":[1,99],",
    "\"end\":[1,99]}]},{\"file\":5,\"message\":\"m\"}]}",
);

// Whether a run that refuses its document ends so where `err` fails at a call.
fn is_refused(alloc: Global, row: &(usize, u64, &str)) -> bool {
    let (err_most, call, said) = *row;
    let failing = [call];
    let devices = Devices {
        err_most,
        err_failing: &failing,
        ..WORKING
    };
    ends(alloc, REFUSED, &devices, Status::Refused, b"", said)
}

// The most bytes of a write to `err`, the call that fails, and what was received before.
const DEAF: [(usize, u64, &str); 2] = [(4096, 0, ""), (1, 3, "rep")];

#[test]
fn a_failing_err_changes_nothing_else(rt: HostRuntime) {
    for row in &DEAF {
        assert!(rt; is_refused(rt.alloc(), row), "at call {}", row.1);
    }
}
