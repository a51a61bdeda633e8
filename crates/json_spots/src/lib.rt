//! Spots in a JSON value, and the paths and steps that lead to them.
//!
//! - [`Step`] and [`Path`]: ways into a value and out of it; [`read_steps`] and [`read_path`]
//!   read their text, [`push_steps`] and [`push_path`] write it.
//! - [`each`]: the spots to which steps lead. [`said_at`]: what is said at a path from a spot.
//! - [`MarkRow`], [`has`]: marks, which tell values of one form from others.
#![tactic(auto)]

mod mark;
mod said;
mod spot;
mod step;
mod text;

pub use mark::{Kinds, MarkRow, has, holds, leads};
pub use said::{Said, said_at, says, word_of};
pub use spot::{Arrival, By, Crumb, Reached, Spot, each};
pub use step::{Path, Step, Wanted};
pub use text::{
    is_plain, push_mark_row, push_name, push_path, push_step, push_steps, read_mark_row, read_path,
    read_steps,
};
