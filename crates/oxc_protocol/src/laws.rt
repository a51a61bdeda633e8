//! A law on the positions of a diagnostic, as the contract of a function that does nothing.
ghost use Rattle.oxc_protocol.specs.Laws.{TellOneRow};

/// The law that two calls give the same row for an offset: an [`Info`](crate::Info) of any
/// diagnostic whose first label starts there and ends within the source, which counts from 1, and a
/// scanner without rows of context that reads an empty span there, which counts from 0. It does
/// nothing; a caller calls it to use the law.
pub fn rows_are_told_alike(_source: &[u8], _offset: usize)
    ensures { TellOneRow _source.now _offset }
{}
