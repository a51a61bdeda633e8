//! Reports before they are drawn, with their files and the locations that tools reported.
//!
//! - [`Sources`]: looks up the texts of names; [`ListedSources`] is a list of them.
//! - [`FoundReports`]: reports on files with or without a text, each with its reported location.
//! - [`kept`]: the reports with a flag; [`each_file_once`]: all, with each file once.
//! - [`FoundFix`]: an exact edit that a tool suggests.
//! - [`note_of`]: the note that gives the location of a report without a label.
#![tactic(auto)]

mod fixes;
mod once;
mod places;
mod reports;
mod sources;

pub use fixes::{FoundFix, RowChange, copied_fixes};
pub use once::{each_file_once, kept};
pub use places::{GivenPlace, note_of};
pub use reports::{FoundFile, FoundReport, FoundReports, stand_in};
pub use sources::{Lack, ListedSources, Source, Sources};
