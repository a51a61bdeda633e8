// Whole runs over devices that fail. (Those over devices that don't are rows of
// `tools/tries/run_rows.py`.)
ghost use Rattle.std.specs.Prelude.{◌<◌};

use documents::MemorySource;
use found_reports::{ListedSources, Source};
use girzohal_options::{Asked, OutputForm, ThemeChoice};
use girzohal_run::{Status, run};
use oxc_protocol::MemorySink;
use source_store::MapStore;
use std::alloc::{AllocError, Global};

/// The number of a call that no run makes.
const NEVER: u64 = u64::MAX;

/// What is asked for.
fn asked_for(alloc: Global, to: OutputForm) -> Result<Asked, AllocError> {
    let mut asked = Asked::new(alloc)?;
    asked.theme = ThemeChoice::Plain;
    asked.to = to;
    Ok(asked)
}

/// A store of one source.
fn store(alloc: Global) -> Result<MapStore, AllocError> {
    let source = Source {
        name: String::from_str(alloc, "a.c")?,
        text: Ok(String::from_str(alloc, "int x\n")?),
    };
    let mut entries = Vec::new(alloc);
    entries.push(source)?;
    let listed = ListedSources::new(alloc, entries)?;
    Ok(MapStore { listed })
}

/// A text that comes in pieces of five bytes, whose read of this number fails.
fn source(alloc: Global, text: &str, failing: u64) -> Result<MemorySource, AllocError> {
    let bytes = text.as_bytes().to_vec(alloc)?;
    Ok(MemorySource::new(bytes, 5, [failing].to_vec(alloc)?))
}

/// A sink whose write of this number fails.
fn sink(alloc: Global, most: usize, failing: u64) -> Result<MemorySink, AllocError>
    requires { 0 < most }
{
    MemorySink::new(alloc, 65_536, most, [failing].to_vec(alloc)?)
}

/// A name; the numbers of the read, of the write of the output and of that of the error output that
/// fail; how the run ends; and what the outputs received.
type Row = (
    &'static str,
    (u64, u64, u64),
    Status,
    &'static str,
    &'static str,
);

/// Whether a run ends so. The error output takes four bytes at a time.
fn ends_so(alloc: Global, asked: &Asked, store: &MapStore, text: &str, row: &Row) -> bool {
    let (_, (read, write, told), status, out_wanted, err_wanted) = *row;
    let Ok(mut input) = source(alloc, text, read) else {
        return false;
    };
    let Ok(mut out) = sink(alloc, 4096, write) else {
        return false;
    };
    let Ok(mut err) = sink(alloc, 4, told) else {
        return false;
    };
    run(alloc, asked, &mut input, store, &mut out, &mut err) == status
        && out.received() == out_wanted.as_bytes()
        && err.received() == err_wanted.as_bytes()
}

/// The same of what is written in this form.
fn ends(alloc: Global, to: OutputForm, text: &str, row: &Row) -> bool {
    match (asked_for(alloc, to), store(alloc)) {
        (Ok(asked), Ok(store)) => ends_so(alloc, &asked, &store, text, row),
        _ => false,
    }
}

/// Lines of a finding, with a kept line before it and one after it.
const DRAWN: &str = "make all\na.c:1:5: error: no semicolon\nmake: stop\n";

const DRAWINGS: [Row; 2] = [
    (
        "the tenth read fails",
        (9, NEVER, NEVER),
        Status::ReadFault,
        "make all\n",
        "girzohal: input failed\n",
    ),
    (
        "the second write fails",
        (NEVER, 1, NEVER),
        Status::SinkFault,
        "make all\n",
        "",
    ),
];

#[test]
fn lines_are_drawn_as_they_come(rt: HostRuntime) {
    for row in &DRAWINGS {
        assert!(rt;
            ends(rt.alloc(), OutputForm::Drawing, DRAWN, row),
            "{}",
            row.0
        );
    }
}

/// Lines of two findings, with a kept line before them and one after them.
const ANNOTATED: &str =
    "make all\na.c:1:5: error: no semicolon\nb.c:1:5: warning: gone\nmake: stop\n";

/// The annotation of the first finding, and those of both.
const FIRST: &str = "::error file=a.c,line=1,endLine=1,col=5,endColumn=6::no semicolon\n";

const BOTH: &str = "::error file=a.c,line=1,endLine=1,col=5,endColumn=6::no semicolon\n\
    ::warning file=b.c,line=1,col=5::gone\n";

const ANNOTATIONS: [Row; 6] = [
    (
        "a read fails",
        (13, NEVER, NEVER),
        Status::ReadFault,
        FIRST,
        "make all\ngirzohal: input failed\n",
    ),
    (
        "the first write fails",
        (NEVER, 0, NEVER),
        Status::SinkFault,
        "",
        "make all\n",
    ),
    (
        "the second write fails",
        (NEVER, 1, NEVER),
        Status::SinkFault,
        FIRST,
        "make all\nmake: stop\n",
    ),
    (
        "the error output fails at once",
        (NEVER, NEVER, 0),
        Status::Reached,
        BOTH,
        "",
    ),
    (
        "the error output fails next",
        (NEVER, NEVER, 1),
        Status::Reached,
        BOTH,
        "make",
    ),
    (
        "the error output and a read fail",
        (13, NEVER, 1),
        Status::ReadFault,
        FIRST,
        "make",
    ),
];

#[test]
fn annotations_are_written_as_lines_come(rt: HostRuntime) {
    for row in &ANNOTATIONS {
        assert!(rt;
            ends(rt.alloc(), OutputForm::Github, ANNOTATED, row),
            "{}",
            row.0
        );
    }
}
