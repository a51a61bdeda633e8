//! Findings as a page of HTML, without scripts and without anything from outside.
//!
//! - [`page_text`]: the page, with a list of the findings by severity and rule, and their drawings
//!   by file.
//! - [`drawing_html`]: a drawing, with an element for each of its styles.
//! - [`html_text`]: a text between tags or in an attribute.
//! - [`styles_have_elements`]: each style of a drawing has an element of its own class.
//!
//! Modules, from the smallest part to the whole:
//!
//! - `escaped`: texts
//! - `spans`: drawings
//! - `spots`: findings in the order of their headings
//! - `groups`: findings below their headings
//! - `page`: the page
#![tactic(auto)]

mod escaped;
mod groups;
mod laws;
mod page;
mod spans;
mod spots;

pub use escaped::html_text;
pub use laws::styles_have_elements;
pub use page::page_text;
pub use spans::drawing_html;
