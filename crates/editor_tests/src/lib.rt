//! Tests of what is sent to an editor: small tables, and callers that are proved from contracts
//! alone, of `lsp_server`.
#![tactic(auto)]

#[cfg(test)]
pub mod callers;
#[cfg(test)]
mod of_diagnostics;
#[cfg(test)]
mod of_frames;
#[cfg(test)]
mod of_lsp_server;
#[cfg(test)]
mod of_marks;
#[cfg(test)]
mod of_source_store;
