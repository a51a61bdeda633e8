// Reports drawn by one kept scanner for each file.
ghost use Rattle.std.specs.Prelude.{◌≡◌, ◌<◌, ◌≤◌, ◌++◌, All, IfOk, IfSome, OnOk, length};
ghost use Rattle.std.specs.Prelude.{string_bytes};
ghost use Rattle.codespan.specs.Texts.{text_of};
ghost use Rattle.oxc_span.specs.Label.{label_end};
ghost use Rattle.oxc_handlers.specs.Report.{drawn, plan_of, view_parts};
ghost use Rattle.render_files.specs.Readers.{Reads};

use crate::labels::report_labels;
use crate::shapes::{Label, Report};
use crate::sources::Sources;
use oxc_handlers::{DiagnosticView, GraphicalReportHandler};
use oxc_span::Span;
use oxc_windows::SpanScanner;
use std::alloc::{AllocError, Global};
use std::collections::BTreeMap;
use std::marker::Model;

/// Scanners of files, which read one row around a span. Contracts see the files.
///
/// The scanner of a file is made for the first report on it, and kept for later reports. It keeps
/// rows from the smallest offset that was given for the file, so that reports in any order find
/// the rows that they show.
#[derive(Drop)]
pub(crate) struct Readers<'a> {
    sources: &'a Sources<'a>,
    starts: BTreeMap<u32, u32>,
    scanners: BTreeMap<u32, SpanScanner<'a>>,
    alloc: Global,
}

impl<'a> Model for Readers<'a> {
    ghost use Rattle.std.specs.Prelude.{List};
    ghost use Rattle.codespan.specs.Texts.{NamedText};
    ghost use Rattle.render_files.specs.Readers.{AreReadersOf};

    ghost Value = { List NamedText };

    ghost view = { λ it. it.sources.now };

    ghost invariant = { λ it. AreReadersOf (record { files = it.sources.now; rows = 1 })
        it.scanners };
}

impl<'a> Readers<'a> {
    /// Readers that know where the labels of reports start. No scanner is made yet.
    pub(crate) fn new(
        alloc: Global,
        sources: &'a Sources<'a>,
        reports: &[Report],
        labels: &[Label],
    ) -> Result<Self, AllocError>
        ensures { IfOk result (λ readers. readers ≡ sources.now) }
    {
        let mut starts = BTreeMap::new(alloc);
        for report in reports {
            let labels = report_labels(labels, report);
            if let Some(start) = labels.iter().map(|label| label.start).min() {
                let least = match starts.get(&report.file) {
                    Some(least) => start.min(*least),
                    None => start,
                };
                starts.insert(report.file, least)?;
            }
        }
        Ok(Readers {
            sources,
            starts,
            scanners: BTreeMap::new(alloc),
            alloc,
        })
    }

    /// Appends the drawing of a report on a file.
    pub(crate) fn draw(
        &mut self,
        handler: &GraphicalReportHandler,
        out: &mut String,
        file: u32,
        view: &DiagnosticView<'_>,
    ) -> Result<(), AllocError>
        requires held { file < length self.old }
        requires fits { length (text_of self.old file) < 4294967295 }
        requires source { IfSome (view_parts view.now).source
            (λ source. source.bytes ≡ text_of self.old file) }
        requires within { All (λ label. label_end label ≤ length (text_of self.old file))
            (view_parts view.now).labels }
        ensures text { OnOk result (string_bytes out.new
            ≡ string_bytes out.old ++ drawn handler.now.theme handler.now.width
            (plan_of handler.now.tab (view_parts view.now))) }
        ensures unchanged { self.new ≡ self.old }
    {
        let alloc = self.alloc;
        if let Some(scanner) = self.scanners.get_mut(&file) {
            return handler.push_view_with_scanner(alloc, out, view, scanner);
        }
        let mut scanner = self.new_reader(file)?;
        handler.push_view_with_scanner(alloc, out, view, &mut scanner)?;
        self.scanners.insert(file, scanner)?;
        Ok(())
    }

    /// A scanner of a file, which keeps rows from the smallest given offset.
    fn new_reader(&self, file: u32) -> Result<SpanScanner<'a>, AllocError>
        requires held { file < length self.now }
        requires fits { length (text_of self.now file) < 4294967295 }
        ensures { IfOk result (Reads (text_of self.now file) 1) }
    {
        let source = self.sources.source(file);
        let mut scanner = SpanScanner::of_text(self.alloc, source, 1, 1);
        if let Some(start) = self.starts.get(&file) {
            scanner.read_span(Span::new(*start, *start))?;
        }
        Ok(scanner)
    }
}
