//! Tests of lines that tools print: small tables, and callers that are proved from contracts
//! alone, of `line_shapes`, `tool_lines`, `fed_lines`, `line_reports`, `problem_lines` and
//! `finding_laws`. What the program writes of lines is tried by `tools/tries/try_lines.py`.
#![tactic(auto)]

#[cfg(test)]
mod callers;
#[cfg(test)]
mod of_fed_lines;
#[cfg(test)]
mod of_finding_laws;
#[cfg(test)]
mod of_line_reports;
#[cfg(test)]
mod of_line_shapes;
#[cfg(test)]
mod of_problem_lines;
#[cfg(test)]
mod of_tool_lines;
