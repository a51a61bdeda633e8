//! The value of an input that is XML.
ghost use Rattle.std.specs.Prelude.{◌≡◌, IfErr, IfOk, Some};
ghost use Rattle.json.specs.Value.{value_view};
ghost use Rattle.json_inputs.specs.Values.{SaysRefused};
ghost use Rattle.json_inputs.specs.Xml.{IsNoXml, IsXmlLine};
ghost use Rattle.xml_values.specs.Document.{value_of};
ghost use Rattle.xml_values.specs.Views.{document_view};

use crate::error::InputError;
use std::alloc::{AllocError, Global};
use xml_values::{Document, Wanted, XmlError, read_xml};

/// The document that an input is; give its value ([`Document::value`]) to [`read_input`].
///
/// # Errors
///
/// [`InputError`]: it is no XML that is read; with a row and a column, and what is wanted there.
/// Out of memory may come instead.
///
/// [`read_input`]: crate::read_input
pub fn document_of<'t>(alloc: Global, bytes: &'t [u8]) -> Result<Document<'t>, InputError>
    ensures document { IfOk result (λ it. value_of bytes.entry.now ≡ Some (document_view it)) }
    ensures cause { IfErr result (SaysRefused (IsNoXml bytes.entry.now)) }
{
    match read_xml(alloc, bytes) {
        Ok(document) => Ok(document),
        Err(
            XmlError::Refused {
                row,
                column,
                wanted,
            },
        ) => Err(no_xml(alloc, row, column, wanted)),
        Err(XmlError::OutOfMemory) => Err(InputError::OutOfMemory),
    }
}

/// The error of an input that is no XML at a row and a column.
fn no_xml(alloc: Global, row: usize, column: usize, wanted: Wanted) -> InputError
    ensures { SaysRefused IsXmlLine result }
{
    let words = wanted.words();
    match format!(in alloc; "girzohal: line {row}, column {column}: wanted {words}\n") {
        Ok(line) => InputError::Refused(line),
        Err(AllocError) => InputError::OutOfMemory,
    }
}
