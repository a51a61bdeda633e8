//! What an input's JSON values say, and the lines beside them.
//!
//! - [`is_report_object`]: whether an input is a log or a document, by the marks of these.
//! - [`read_forms`]: the forms that values are read by; [`own_rows`]: those in a user's file.
//! - [`read_input`]: the findings of all values, and the lines about them.
//! - [`lines_beside`]: the lines beside the values.
//! - [`document_of`]: the document that an input is, if it is XML.
#![tactic(auto)]

mod beside;
mod error;
mod forms;
mod input;
mod marks;
mod part;
mod refused;
mod told;
mod values;
mod xml;

pub use beside::lines_beside;
pub use error::InputError;
pub use forms::{own_rows, own_text, read_forms};
pub use input::{Said, read_input};
pub use marks::is_report_object;
pub use values::{rows_of, values_of};
pub use xml::document_of;
