//! Tests of texts, their rows and places, and the plans of snippets: small tables, and callers
//! that are proved from contracts alone, of `bytecount`, `source_location`, `utf16_places`,
//! `text_places`, `client_text`, `oxc_windows` and `oxc_plan`.
#![tactic(auto)]

#[cfg(test)]
mod callers;
#[cfg(test)]
mod of_bytecount;
#[cfg(test)]
mod of_client_text;
#[cfg(test)]
mod of_oxc_plan;
#[cfg(test)]
mod of_oxc_plan_marks;
#[cfg(test)]
mod of_oxc_plan_snippets;
#[cfg(test)]
mod of_oxc_windows;
#[cfg(test)]
mod of_source_location;
#[cfg(test)]
mod of_text_places;
#[cfg(test)]
mod of_text_size;
#[cfg(test)]
mod of_utf16_places;
#[cfg(test)]
mod plain_reader;
#[cfg(test)]
mod texts;
