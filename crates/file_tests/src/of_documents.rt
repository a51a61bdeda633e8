// What no clause says: that ample memory suffices, and single inputs beside the definitions.
ghost use Rattle.std.specs.Prelude.{◌≤◌};

use crate::of_codespan::is_text;
use documents::{generate, read_document, write_document};
use std::alloc::Global;

const ONE_MADE: &str = concat!(
    "{\"files\":[{\"name\":\"gen\",\"source\":\"r1\\n\"}],",
    "\"reports\":[{\"file\":0,\"labels\":[{\"end\":[1,2],\"start\":[1,1],",
    "\"text\":\"t\"}],\"message\":\"m1\"}]}",
);

// Whether a generated document of `count` reports has `length` bytes.
fn has_length(alloc: Global, count: u32, length: usize) -> bool
    requires { count ≤ 5000 }
{
    match generate(alloc, count) {
        Ok(bytes) => bytes.len() == length,
        Err(_) => false,
    }
}

fn is_one_made(alloc: Global) -> bool {
    match generate(alloc, 1) {
        Ok(bytes) => bytes.as_slice() == ONE_MADE.as_bytes(),
        Err(_) => false,
    }
}

#[test]
fn a_document_of_any_size_is_made(rt: HostRuntime) {
    let alloc = rt.alloc();
    assert!(rt; is_one_made(alloc) && has_length(alloc, 0, 51) && has_length(alloc, 5000, 460_622));
}

// Documents in the form in which they are written.
const WRITTEN: [&str; 4] = [
    "{\"files\":[],\"reports\":[]}",
    concat!(
        "{\"files\":[{\"name\":\"a\",\"source\":\"x\\ny\"}],",
        "\"reports\":[{\"file\":0,\"message\":\"m\"}]}",
    ),
    concat!(
        "{\"files\":[{\"name\":\"a\",\"source\":\"\"}],\"reports\":[{\"file\":0,\"help\":\"h\",",
        "\"labels\":[{\"end\":[1,2],\"primary\":true,\"start\":[1,1],\"text\":\"t\"}],",
        "\"message\":\"m\",\"note\":\"n\",\"number\":\"1\",\"scope\":\"s\",",
        "\"severity\":\"advice\",\"url\":\"u\"}]}",
    ),
    concat!(
        "{\"files\":[{\"name\":\"a\",\"source\":\"\"}],\"reports\":[{\"file\":0,",
        "\"labels\":[{\"bytes\":[0,1]},{\"end\":[1,1],\"start\":[1,1]}],\"message\":\"m\"}],",
        "\"version\":2}",
    ),
];

// Whether a document is read, and written as the same text.
fn is_written_again(alloc: Global, text: &str) -> bool {
    match read_document(alloc, text.as_bytes()) {
        Ok(Some(it)) => is_text(write_document(alloc, &it.files, &it.reports), text),
        _ => false,
    }
}

#[test]
fn what_was_written_is_written_again(rt: HostRuntime) {
    for text in &WRITTEN {
        assert!(rt; is_written_again(rt.alloc(), text), "{text}");
    }
}
