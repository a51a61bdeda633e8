//! SARIF 2.1.0 logs, read and written.
#![tactic(auto)]

mod cut;
mod faults;
mod form;
mod log;
mod read;
mod top;

pub use cut::log_in;
pub use faults::{Fault, Step, find_fault};
pub use form::{Key, Kind, Shape, Words};
pub use log::{
    Artifact, ArtifactLocation, BaselineState, Change, ColumnKind, Component, Counting, Fix,
    Invocation, Level, Location, Log, LogResult, Message, NamedMessage, Names, Notification,
    Region, Replacement, ResultKind, Rule, RuleRef, Run, Status, Suppression, Tool, UriBase,
};
pub use top::{LogError, read_log};
