//! Positions of the Language Server Protocol.
#![tactic(auto)]

mod alone;
mod answers;
mod build;
mod encoding;
mod laws;
mod mend;
mod page;
mod page_text;
mod pieces;
mod place;
mod places;
mod plain;
mod seek;

pub use encoding::Encoding;
pub use laws::{encodings_commute, nearest_keeps_places, places_ascend, places_lead_back};
pub use pieces::Pieces;
pub use place::Place;
pub use places::TextPlaces;
