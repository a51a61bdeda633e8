//! Tests of spans, wrapped texts, diagnostics and their reporters: small tables, and callers that
//! are proved from contracts alone, of `oxc_span`, `textwrap`, `oxc_protocol` and `diagnostics`.
#![tactic(auto)]

#[cfg(test)]
mod callers;
#[cfg(test)]
mod errors;
#[cfg(test)]
mod of_diagnostics;
#[cfg(test)]
mod of_oxc_protocol;
#[cfg(test)]
mod of_oxc_protocol_records;
#[cfg(test)]
mod of_oxc_protocol_reporters;
#[cfg(test)]
mod of_oxc_span;
#[cfg(test)]
mod of_textwrap;
#[cfg(test)]
mod texts;
