// The texts of reports.
ghost use Rattle.std.specs.Prelude.{IfErr, IfOk, string_bytes};
ghost use Rattle.girzohal_run.specs.Made.{IsFree};
ghost use Rattle.girzohal_run.specs.Texts.{IsText};

use crate::fault::Fault;
use found_reports::FoundReports;
use girzohal_options::{Asked, OutputForm};
use html_pages::page_text;
use report_texts::{
    CiFormat, ci_text, document_text, drawing_text, each_drawing, found_findings, gitlab_text,
    json_text, markdown_text, named_tool, sarif_text, summary_text,
};
use std::alloc::Global;

/// The text of reports in the form that was asked for.
pub(crate) fn text_of(
    alloc: Global,
    asked: &Asked,
    found: &FoundReports<'_>,
) -> Result<String, Fault>
    ensures text { IfOk result (λ text. IsText asked.now found.now (string_bytes text)) }
    ensures cause { IfErr result IsFree }
{
    match asked.to {
        OutputForm::Drawing => Ok(drawing_text(alloc, asked, found)?),
        OutputForm::Json => Ok(json_text(alloc, asked.raw, found)?),
        OutputForm::Document => Ok(document_text(alloc, asked.raw, found)?),
        OutputForm::Sarif => Ok(sarif_text(alloc, asked, found)?),
        OutputForm::Problems => Ok(ci_text(alloc, CiFormat::Problems, asked.raw, found)?),
        OutputForm::Github => Ok(ci_text(alloc, CiFormat::Github, asked.raw, found)?),
        OutputForm::Gitlab => Ok(gitlab_text(alloc, named_tool(asked), asked.raw, found)?),
        OutputForm::Checkstyle => Ok(ci_text(alloc, CiFormat::Checkstyle, asked.raw, found)?),
        OutputForm::Junit => Ok(ci_text(alloc, CiFormat::Junit, asked.raw, found)?),
        OutputForm::Stylish => Ok(ci_text(alloc, CiFormat::Stylish, asked.raw, found)?),
        OutputForm::Summary => Ok(summary_text(alloc, asked.raw, found)?),
        OutputForm::Markdown => Ok(markdown_text(alloc, asked.raw, found)?),
        // The page of the findings, sanitized, with the drawing of each report.
        OutputForm::Html => {
            let findings = found_findings(alloc, asked.raw, found)?;
            let drawings = each_drawing(alloc, asked, found)?;
            Ok(page_text(alloc, &findings, &drawings)?)
        }
    }
}
