//! What tools print as JSON, read as findings by a table of forms.
#![tactic(auto)]

mod cut;
mod finding;
mod form;
mod guard;
mod keys;
mod place;
mod posn;
mod print;
mod read;
mod refusal;
mod rows;
mod said;
mod severity;
mod shape;
mod stop;
mod table;
mod told;
mod values;

pub use cut::{Cut, Piece, cut_input};
pub use finding::{Beside, Finding, Outcome};
pub use form::{Ask, Form, Guard, List, Row, Side, SideKind, Unit};
pub use place::{End, Figures, Place, Span};
pub use posn::Posn;
pub use print::push_forms;
pub use read::{Aside, ReadError, Reading, read_value};
pub use refusal::{first_keys, nearest, push_refusal};
pub use said::{Fault, Whole};
pub use shape::{FormError, known_forms, parse_forms};
pub use stop::stop_in;
pub use told::{Forms, Told, is_hollow, tell_form};
pub use values::{read_told, read_values};
