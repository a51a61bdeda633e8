//! Where a tool says that a finding is.

/// The span of a finding, in bytes, and how many bytes its tool counts before it.
#[derive(Clone, Copy)]
pub(crate) struct Aim {
    pub start: usize,
    pub end: usize,
    pub count: u32,
}
