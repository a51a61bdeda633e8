//! The findings of reports, and their texts for CI systems.
//!
//! - A [`Finding`] has the name of a file, a start and an end in rows and columns, a severity, a
//!   code and a message. [`findings_of`] returns the findings of reports, one for each report, in
//!   order; [`findings_on`] does so by indexes that were made before.
//! - [`github_text`], [`gitlab_text`], [`checkstyle_text`], [`junit_text`], [`stylish_text`] and
//!   [`problems_text`] return the text of findings in a format; [`github_line`] and
//!   [`problem_line`] that of one finding.
//! - [`CiFormat`] names the formats, and [`send`] writes a text to a sink.
//! - [`Annotation`] is what a line for GitHub says: [`annotation_of`] makes one of a finding,
//!   [`write_annotation`] writes its line and [`read_annotation`] reads it back.
//! - [`github_escape`], [`github_unescape`], [`xml_escape`] and [`fingerprint`] escape texts and
//!   tell findings apart.
#![tactic(auto)]

mod annotation;
mod checkstyle;
mod counted;
mod files;
mod finding;
mod fingerprints;
mod format;
mod gitlab;
mod junit;
mod located;
mod percent;
mod problems;
mod read;
mod stylish;
mod xml;

pub use annotation::{
    Annotation, Level, annotation_of, github_line, github_text, write_annotation,
};
pub use checkstyle::checkstyle_text;
pub use finding::{Finding, Location};
pub use fingerprints::{fingerprint, issues_are_told_apart};
pub use format::{CiFormat, SendError, send, text_in};
pub use gitlab::gitlab_text;
pub use junit::junit_text;
pub use located::{findings_of, findings_on};
pub use percent::{Field, github_escape, github_unescape};
pub use problems::{problem_line, problems_text};
pub use read::read_annotation;
pub use stylish::stylish_text;
pub use xml::xml_escape;
