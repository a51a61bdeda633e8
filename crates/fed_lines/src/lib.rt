//! The blocks of lines that come one at a time.
//!
//! [`Lines`] takes lines as they come, gives each block as soon as no later line can change it,
//! and holds only the current block and one more line. [`ends_at`] says whether a block ends at a
//! line, whatever follows.
#![tactic(auto)]

mod ends;
mod lines;
pub mod whole;

pub use ends::ends_at;
pub use lines::Lines;
