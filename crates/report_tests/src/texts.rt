// How texts are held against those that are wanted.
use std::alloc::AllocError;

/// Whether there was memory for a text, and it is the wanted one.
pub(crate) fn is_text(text: Result<String, AllocError>, wanted: &str) -> bool {
    match text {
        Ok(text) => text.as_str() == wanted,
        Err(_) => false,
    }
}

/// Whether a text that may be missing is there, and is the wanted one.
pub(crate) fn reads(text: Option<&str>, wanted: &str) -> bool {
    match text {
        Some(text) => text == wanted,
        None => false,
    }
}
