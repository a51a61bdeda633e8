// Reports on one file as one text, and what is said of those that are refused.
use crate::of_codespan::is_shown;
use documents::read_document;
use oxc_handlers::{GraphicalReportHandler, GraphicalTheme};
use render_files::{ReportError, files_json, files_text};
use std::alloc::Global;

/// Two reports on one file, the later row first.
const BOTH: &str = concat!(
    "{\"version\":2,\"files\":[{\"name\":\"a\",\"source\":\"ab\\ncd\"}],\"reports\":[",
    "{\"file\":0,\"message\":\"m\",\"labels\":[{\"bytes\":[3,4]}]},",
    "{\"file\":0,\"message\":\"m\",\"labels\":[{\"bytes\":[0,1]}]}]}",
);

const DRAWN: &str = concat!(
    "\n  x m\n   ,-[a:2:1]\n 1 | ab\n 2 | cd\n   : ^\n   `----\n",
    "\n  x m\n   ,-[a:1:1]\n 1 | ab\n   : ^\n 2 | cd\n   `----\n",
);

const AS_JSON: &str = concat!(
    "{\"message\": \"m\",\"severity\": \"error\",\"filename\": \"a\",",
    "\"labels\": [{\"span\": {\"offset\": 3,\"length\": 1,\"line\": 2,\"column\": 1}}]}\n",
    "{\"message\": \"m\",\"severity\": \"error\",\"filename\": \"a\",",
    "\"labels\": [{\"span\": {\"offset\": 0,\"length\": 1,\"line\": 1,\"column\": 1}}]}\n",
);

fn is_text(text: Result<String, ReportError>, wanted: &str) -> bool {
    match text {
        Ok(text) => text.as_str() == wanted,
        Err(_) => false,
    }
}

/// Whether both are shown one after another, in either form.
fn are_shown(alloc: Global) -> bool {
    let Ok(Some(it)) = read_document(alloc, BOTH.as_bytes()) else {
        return false;
    };
    let handler = GraphicalReportHandler::new_themed(GraphicalTheme::none());
    is_text(files_text(alloc, &handler, &it.files, &it.reports), DRAWN)
        && is_text(files_json(alloc, &it.files, &it.reports), AS_JSON)
}

#[test]
fn reports_on_one_file_are_shown_in_their_order(rt: HostRuntime) {
    assert!(rt; are_shown(rt.alloc()));
}

/// What is said of each refusal.
const SAID: [(ReportError, &str); 5] = [
    (
        ReportError::UnknownFile { report: 1 },
        "report 1: unknown file",
    ),
    (
        ReportError::PositionOutside {
            report: 0,
            label: 2,
            at_end: true,
        },
        "report 0: label 2: no position",
    ),
    (
        ReportError::LabelReversed {
            report: 0,
            label: 0,
            start: 2,
            end: 0,
        },
        "report 0: label 0: end 0 before start 2",
    ),
    (ReportError::SinkFault, "output failed"),
    (ReportError::OutOfMemory, "out of memory"),
];

#[test]
fn errors_say_what_happened(rt: HostRuntime) {
    for (error, text) in &SAID {
        assert!(rt; is_shown(rt.alloc(), error, text), "{text}");
    }
}
