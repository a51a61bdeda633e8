//! One line per problem, written and read back.
//!
//! A line is `name:line:column:line:column: severity[rule]: message` and an LF: where the problem
//! starts, where it ends, its severity, its rule if it has one, and its message. What would be
//! taken for the end of a field is escaped, so a problem has exactly one line, and the line gives
//! the problem back. Tools can take lines apart with one regular expression, whatever a file name
//! or a message holds.
//!
//! [`write_problem`] and [`read_problem`] convert single lines, [`read_problems`] reads a whole
//! text, and [`ProblemReporter`] gives the lines of diagnostics.
#![tactic(auto)]

mod escape;
mod parse;
mod read;
mod reporter;
mod write;

pub use read::{ProblemError, read_problem, read_problems};
pub use reporter::{ProblemReporter, lines_read_back, report_lines};
pub use write::write_problem;
