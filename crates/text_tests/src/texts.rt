//! What the tests ask of a text that was made.
use std::alloc::AllocError;

/// Whether a text was made, and reads so.
pub(crate) fn is_text(text: Result<String, AllocError>, wanted: &str) -> bool {
    match text {
        Ok(text) => text.as_str() == wanted,
        Err(_) => false,
    }
}
