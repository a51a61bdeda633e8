// Which names in a log mean a file.
use source_store::{Spelling, means_file};
use std::alloc::Global;

const NAMES: [(Spelling, &str, bool); 9] = [
    (Spelling::Path, "a.c", true),
    (Spelling::Path, "./src/a.c", true),
    (Spelling::Path, "/x y/src/a.c", true),
    (Spelling::Path, "file:///x%20y/src/a.c", true),
    (Spelling::Path, "c/a.c", false),
    (Spelling::Path, "x%20y/src/a.c", false),
    (Spelling::Path, "", false),
    (Spelling::Uri, "x%20y/src/a.c", true),
    (Spelling::Uri, "b.c", false),
];

/// Whether a name means the file, or doesn't, as wanted.
fn means(alloc: Global, row: &(Spelling, &str, bool)) -> bool {
    means_file(alloc, row.0, "/x y/src/a.c", row.1) == Ok(row.2)
}

#[test]
fn names_mean_files(rt: HostRuntime) {
    let alloc = rt.alloc();
    for row in &NAMES {
        assert!(rt; means(alloc, row), "{}", row.1);
    }
}
