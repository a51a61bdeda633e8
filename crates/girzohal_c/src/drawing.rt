// The text of what the arguments mean, or the reason that there is none.
ghost use Rattle.std.specs.Prelude.{map};
ghost use Rattle.render_files.specs.Given.{given_report};
ghost use Rattle.report_arrays.specs.Values.{named, report as report_of};
ghost use Rattle.girzohal_c.specs.Meaning.{arrays, document_meaning, meaning};
ghost use Rattle.girzohal_c.specs.Replies.{IsTextOf, Makes};

use crate::abi::ABI;
use crate::shapes::Look;
use crate::style::{Form, Style, style_of};
use codespan::Files;
use documents::read_document;
use render_files::{FileReport, ReportError, files_json, files_text};
use report_arrays::{File, Label, Report, Wrong, arrays_json, arrays_text, read_texts};
use std::alloc::Global;

/// A wrong argument.
#[derive(Drop)]
pub(crate) enum Argument {
    /// The number of the ABI.
    InAbi,
    /// The texts, or an element of the arrays.
    InArrays(Wrong),
    /// A field of the look, from 0.
    InLook(usize),
}

/// The reason that there is no text.
#[derive(Drop)]
pub(crate) enum Fault {
    /// An argument is wrong.
    IsWrong(Argument),
    /// The bytes aren't a document.
    IsNoDocument,
    /// A report has an error.
    IsRefused(ReportError),
    /// There was no memory left.
    WantsMemory,
}

/// The text of what the arrays mean. Every argument is checked before memory is asked for, so that
/// a wrong one is found without memory too.
#[tactic(auto, unfolding(crate::specs::Meaning::wrong))]
pub(crate) fn draw_arrays(
    alloc: Global,
    abi: u32,
    texts: &[u8],
    files: &[File],
    reports: &[Report],
    labels: &[Label],
    look: &Look,
) -> Result<String, Fault>
    ensures { let it = arrays texts.now files.now reports.now labels.now in
        Makes look.now (meaning abi it look.now) result }
{
    if abi != ABI {
        return Err(Fault::IsWrong(Argument::InAbi));
    }
    let text = match read_texts(texts, files, reports, labels) {
        Ok(text) => text,
        Err(wrong) => return Err(Fault::IsWrong(Argument::InArrays(wrong))),
    };
    let style = match style_of(look) {
        Ok(style) => style,
        Err(field) => return Err(Fault::IsWrong(Argument::InLook(field))),
    };
    match draw_right(alloc, text, files, reports, labels, &style) {
        Ok(text) => Ok(text),
        Err(ReportError::OutOfMemory) => Err(Fault::WantsMemory),
        Err(why) => Err(Fault::IsRefused(why)),
    }
}

/// The text of what a document means. The number of the ABI and the look are checked before
/// the document is read.
pub(crate) fn draw_document(
    alloc: Global,
    abi: u32,
    document: &[u8],
    look: &Look,
) -> Result<String, Fault>
    ensures { Makes look.now (document_meaning abi document.now look.now) result }
{
    if abi != ABI {
        return Err(Fault::IsWrong(Argument::InAbi));
    }
    let style = match style_of(look) {
        Ok(style) => style,
        Err(field) => return Err(Fault::IsWrong(Argument::InLook(field))),
    };
    let document = match read_document(alloc, document) {
        Ok(Some(document)) => document,
        Ok(None) => return Err(Fault::IsNoDocument),
        Err(_) => return Err(Fault::WantsMemory),
    };
    match draw(alloc, &style, &document.files, &document.reports) {
        Ok(text) => Ok(text),
        Err(ReportError::OutOfMemory) => Err(Fault::WantsMemory),
        Err(why) => Err(Fault::IsRefused(why)),
    }
}

/// The text of checked arrays.
fn draw_right(
    alloc: Global,
    texts: &str,
    files: &[File],
    reports: &[Report],
    labels: &[Label],
    style: &Style,
) -> Result<String, ReportError>
    ensures { IsTextOf style.now.form style.now.handler (map (named texts.now) files.now)
        (map (report_of texts.now labels.now) reports.now) result }
{
    match style.form {
        Form::Drawing => arrays_text(alloc, &style.handler, texts, files, reports, labels),
        Form::Json => arrays_json(alloc, texts, files, reports, labels),
    }
}

/// The text of reports.
fn draw(
    alloc: Global,
    style: &Style,
    files: &Files<String>,
    reports: &[FileReport],
) -> Result<String, ReportError>
    ensures { IsTextOf style.now.form style.now.handler files.now
        (map given_report reports.now) result }
{
    match style.form {
        Form::Drawing => files_text(alloc, &style.handler, files, reports),
        Form::Json => files_json(alloc, files, reports),
    }
}
