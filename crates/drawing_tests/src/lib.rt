//! Tests of drawings: small tables, and callers that are proved from contracts alone, of
//! `oxc_handlers` and `report_reader`.
#![tactic(auto)]

#[cfg(test)]
mod callers;
#[cfg(test)]
mod of_oxc_handlers;
#[cfg(test)]
mod of_oxc_handlers_json;
#[cfg(test)]
mod of_oxc_handlers_reports;
#[cfg(test)]
mod of_report_reader;
