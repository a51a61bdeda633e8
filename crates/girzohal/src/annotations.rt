// Annotations for GitHub, counted as they are written.
use documents::{Source, StderrSink, StdoutSink};
use girzohal_options::{Asked, OutputForm};
use girzohal_run::{Made, Status, Wanted, run};
use oxc_protocol::{Failed, Sink};
use source_store::DiskStore;
use std::alloc::Global;
use std::process::ExitCode;

/// How many annotations of a level GitHub shows of a step.
const SHOWN: usize = 10;

/// How many annotations of each level a text has.
#[derive(Drop)]
struct Counts {
    errors: usize,
    warnings: usize,
    notices: usize,
    /// How many bytes of the last line came.
    at: usize,
}

impl Counts {
    fn new() -> Counts {
        Counts {
            errors: 0,
            warnings: 0,
            notices: 0,
            at: 0,
        }
    }

    /// Counts those that begin in the next part of the text. Each is a line: `::error`,
    /// `::warning` or `::notice`, and more.
    fn take(&mut self, text: &[u8]) {
        for byte in text {
            if *byte == b'\n' {
                self.at = 0;
            } else {
                // by the first letter of its level
                match (self.at, *byte) {
                    (2, b'e') => self.errors = self.errors.saturating_add(1),
                    (2, b'w') => self.warnings = self.warnings.saturating_add(1),
                    (2, b'n') => self.notices = self.notices.saturating_add(1),
                    _ => {}
                }
                self.at = self.at.saturating_add(1);
            }
        }
    }

    /// Writes to standard error how many there are, if GitHub doesn't show all.
    fn tell(&self, rt: &HostRuntime) {
        let (errors, warnings, notices) = (self.errors, self.warnings, self.notices);
        if errors > SHOWN || warnings > SHOWN || notices > SHOWN {
            let _told = eprintln!(rt;
                "girzohal: GitHub shows ten annotations of each level a step: {errors} errors, \
                 {warnings} warnings, {notices} notices"
            );
        }
    }
}

/// Standard output, whose annotations are counted.
#[derive(Drop)]
struct Counted<O> {
    out: O,
    counts: Counts,
}

impl<O: Sink> Sink for Counted<O> {
    ghost received = { λ s. O.received s.out };

    ghost faults = { λ s. O.faults s.out };

    fn write(&mut self, bytes: &[u8]) -> Result<usize, Failed> {
        let count = self.out.write(bytes)?;
        self.counts.take(&bytes[..count]);
        Ok(count)
    }
}

/// Runs over an input, writes to standard output, and tells if GitHub doesn't show all annotations.
pub(crate) fn print_annotations<I: Source>(
    rt: &HostRuntime,
    alloc: Global,
    asked: &Asked,
    input: &mut I,
    store: &DiskStore<'_, HostRuntime>,
) -> ExitCode {
    let mut out = Counted {
        out: StdoutSink::new(rt.stdout()),
        counts: Counts::new(),
    };
    let mut err = StderrSink::new(rt.stderr());
    let status = run(alloc, asked, input, store, &mut out, &mut err);
    match status {
        Status::Clean | Status::Reached => out.counts.tell(rt),
        _ => {}
    }
    ExitCode::from(status.code())
}

/// Tells if GitHub doesn't show all annotations of an output.
pub(crate) fn tell_annotations(rt: &HostRuntime, wanted: &[Wanted], made: &[Made]) {
    let mut rest = made;
    for output in wanted {
        if let [made, more @ ..] = rest {
            if output.to == OutputForm::Github {
                let mut counts = Counts::new();
                counts.take(made.text().as_bytes());
                return counts.tell(rt);
            }
            rest = more;
        }
    }
}
