// Errors and sources that tests are made of.
ghost use Rattle.oxc_protocol.specs.Source.{Fits};

use oxc_protocol::{Error, NamedSource, OxcDiagnostic, TextSource};
use std::alloc::{AllocError, Global};

/// Appends an error without a source.
pub(crate) fn push_error(
    alloc: Global,
    errors: &mut Vec<Error>,
    message: &str,
) -> Result<(), AllocError> {
    let error = OxcDiagnostic::error(alloc, message)?;
    errors.push(Box::new(alloc, error)?)?;
    Ok(())
}

/// A text under the name `a.js`.
pub(crate) fn source(alloc: Global, text: &str) -> Result<NamedSource<TextSource>, AllocError>
    requires { Fits text.now }
{
    let text = String::from_str(alloc, text)?;
    let name = String::from_str(alloc, "a.js")?;
    Ok(NamedSource::new(name, TextSource::new(text)))
}
