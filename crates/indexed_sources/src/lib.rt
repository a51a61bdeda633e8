//! Sources with the indexes of their rows, which are made once.
//!
//! - [`IndexedSources`]: the text of each name with the index of its rows ([`RowText`]), or why it
//!   has none.
//! - [`SourceList`]: a list of sources that grows, with indexes or without.
#![tactic(auto)]

mod list;
mod row_text;
mod sources;

pub use list::SourceList;
pub use row_text::RowText;
pub use sources::IndexedSources;
