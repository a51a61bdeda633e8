//! The run of the program `girzohal`, over any source, store and sinks.
//!
//! - [`run`]: reads an input and writes the output.
//! - [`rules_of`]: the filters that options ask for; [`read_baseline`]: a [`Baseline`].
//! - [`run_each`]: reads an input and makes several outputs of it, each [`Wanted`] and [`Made`].
//! - [`run_several`]: makes outputs of several inputs, each an [`Input`].
//! - [`Status`]: how a run ended, and its exit status.
//!
//! Modules, in the order in which a run uses them:
//!
//! - `program`: the run itself
//! - `each`: several outputs of one input
//! - `several`: outputs of several inputs; `finds`: what each of them has; `owned`: its reports, with
//!   the texts of their files
//! - `making`: what is made of an input, in its form
//! - `object`, `logs`: the same for a JSON object, which is a document or a log
//! - `lines`: the same for lines that a tool prints for people
//! - `values`: the same for JSON values among lines
//! - `opening`, `live`: the same for lines that are written as they come
//! - `filtering`: what is written of the reports that filters leave
//! - `texts`: the texts of reports
//! - `rules`, `baseline`: the filters that options ask for, and what a baseline has
//! - `fault`: why nothing is made
//! - `status`: how a run ended
#![tactic(auto)]

mod baseline;
mod each;
mod fault;
mod filtering;
mod finds;
mod lines;
mod live;
mod logs;
mod making;
mod object;
mod opening;
mod owned;
mod program;
mod rules;
mod several;
mod status;
mod texts;
mod values;
mod xml;

pub use baseline::{Baseline, read_baseline};
pub use each::{Wanted, run_each};
pub use fault::Fault;
pub use making::Made;
pub use opening::LIMIT;
pub use program::run;
pub use rules::{refusal_text, rules_of};
pub use several::{Input, run_several};
pub use status::Status;
