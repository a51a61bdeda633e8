//! The keys of rows.

pub(crate) const FILE: &str = "file";

pub(crate) const LINE: &str = "line";

pub(crate) const LINE0: &str = "line0";

pub(crate) const COLUMN: &str = "column";

pub(crate) const COLUMN0: &str = "column0";

/// A file, a line and perhaps a column, in one text.
pub(crate) const POSN: &str = "posn";

pub(crate) const END_LINE: &str = "end_line";

pub(crate) const END_COLUMN: &str = "end_column";

pub(crate) const LENGTH: &str = "length";

pub(crate) const OFFSET: &str = "offset";

pub(crate) const END_OFFSET: &str = "end_offset";

pub(crate) const SEVERITY: &str = "severity";

pub(crate) const CODE: &str = "code";

pub(crate) const MESSAGE: &str = "message";

pub(crate) const HELP: &str = "help";

pub(crate) const NOTE: &str = "note";

pub(crate) const URL: &str = "url";

pub(crate) const TEXT: &str = "text";

pub(crate) const PRIMARY: &str = "primary";

pub(crate) const SCOPE: &str = "scope";

pub(crate) const DEFAULT: &str = "default";

pub(crate) const UNIT: &str = "unit";

pub(crate) const END: &str = "end";

pub(crate) const LAST: &str = "last";

pub(crate) const AS: &str = "as";

pub(crate) const LETTER: &str = "letter";

/// Parts that are numbers.
pub(crate) const NUMBERS: [&str; 9] = [
    LINE, LINE0, COLUMN, COLUMN0, END_LINE, END_COLUMN, LENGTH, OFFSET, END_OFFSET,
];

/// Parts that are texts.
pub(crate) const TEXTS: [&str; 8] = [FILE, SEVERITY, CODE, MESSAGE, HELP, NOTE, URL, TEXT];
