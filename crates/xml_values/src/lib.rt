//! What tools print as XML, read as JSON values.
//!
//! - [`read_xml`]: the document; [`Document::value`]: its value.
#![tactic(auto)]

mod document;
mod element;
mod error;
mod marks;
mod tag;
mod text;
mod value;

pub use document::{Document, read_xml};
pub use error::{Wanted, XmlError};
