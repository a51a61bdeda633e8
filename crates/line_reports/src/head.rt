//! The report of a finding that has a span, with its notes.
ghost use Rattle.std.specs.Prelude.{◌≡◌, ◌++◌, ◌∷◌, [], ◌<◌, IfOk, OnOk, length, map, option_map};
ghost use Rattle.found_reports.specs.Fixes.{fix_view};
ghost use Rattle.found_reports.specs.Found.{file_at};
ghost use Rattle.line_reports.specs.Asides.{PlacedHeld, aside_parts};
ghost use Rattle.line_reports.specs.Drawings.{drawings_parts};
ghost use Rattle.line_reports.specs.Gathered.{AreTexts, IsListed, IsListedWith, MarksStand};
ghost use Rattle.line_reports.specs.Gathered.{StandsHeld, mark_parts};
ghost use Rattle.line_reports.specs.Joined.{group_parts};
ghost use Rattle.line_reports.specs.Reports.{head_report, held_drawings, held_fixes};
ghost use Rattle.line_reports.specs.Told.{body_lines, told_parts};

use crate::asides::{Aside, either};
use crate::drawings::{Drawings, no_drawings};
use crate::gathered::Gathered;
use crate::groups::Group;
use crate::labels::{Mark, diagnostic, labels, lines};
use crate::pieces::{characters, lent};
use crate::told::Told;
use found_reports::FoundFix;
use line_shapes::tools::Columns;
use std::alloc::{AllocError, Global};
use std::ops::Range;

impl<'s> Gathered<'s> {
    /// Adds the report of a finding that has this span in this file, with its notes.
    #[tactic(auto, using(crate::proofs::NumberLemmas::marked_rules))]
    pub(crate) fn push_head(
        &mut self,
        alloc: Global,
        columns: Columns,
        file: usize,
        group: &Group<'_>,
        range: &Range<usize>,
        asides: &[Option<Aside>],
        marks: &[Mark<'_, '_>],
    ) -> Result<(), AllocError>
        requires texts { AreTexts self.old.texts.items self.old.found.files }
        requires file { file < length self.old.found.files }
        requires range { StandsHeld (file_at self.old.found.files file).held range.now }
        requires marks { MarksStand (file_at self.old.found.files file).held
            (map mark_parts marks.now) }
        requires listed { IsListedWith self.old.numbers self.old.found file }
        ensures texts { OnOk result (AreTexts self.new.texts.items self.new.found.files) }
        ensures files { self.new.found.files ≡ self.old.found.files }
        ensures listed { OnOk result (IsListed self.new.numbers self.new.found) }
        ensures found { OnOk result (self.new.found.found ≡ self.old.found.found
            ++ head_report columns (file_at self.old.found.files file)
            (group_parts group.now).head (map (option_map aside_parts) asides.now) range.now (map mark_parts marks.now) ∷ []) }
    {
        let body = characters(alloc, group.head.body)?;
        let body = lent(alloc, body.as_slice())?;
        let drawings = self.drawings(alloc, columns, file, &group.head, range, body.as_slice())?;
        let labels = labels(alloc, range, drawings.labels.as_slice(), marks)?;
        let shown = either(alloc, drawings.shown.as_slice(), asides)?;
        let lines = lines(alloc, &group.head, body.as_slice(), shown.as_slice(), marks)?;
        let diagnostic = diagnostic(alloc, &group.head, labels, lines.as_slice())?;
        let fixes = self.fixes(alloc, file, &group.head, marks)?;
        self.found.push_fixed(file, diagnostic, None, fixes)?;
        Ok(())
    }

    /// The drawings of the excerpt of a finding that has this span in this file; `body` has the
    /// characters of its other lines.
    #[tactic(auto, using(crate::proofs::LabelLemmas::held_rules))]
    pub(crate) fn drawings(
        &self,
        alloc: Global,
        columns: Columns,
        file: usize,
        told: &Told<'_>,
        range: &Range<usize>,
        body: &[&[char]],
    ) -> Result<Drawings, AllocError>
        requires texts { AreTexts self.now.texts.items self.now.found.files }
        requires file { file < length self.now.found.files }
        requires range { StandsHeld (file_at self.now.found.files file).held range.now }
        requires body { map (λ line. line.now) body.now ≡ body_lines (told_parts told.now) }
        ensures drawings { IfOk result (λ it. drawings_parts it
            ≡ held_drawings columns (file_at self.now.found.files file).held
            (told_parts told.now) range.now) }
        ensures stand { IfOk result (λ it.
            PlacedHeld (file_at self.now.found.files file).held (drawings_parts it).labels) }
    {
        match self.text(file) {
            Some(text) => {
                let drawings = told.drawings(alloc, text, told.aim(columns, range), body)?;
                Ok(drawings)
            }
            None => Ok(no_drawings(alloc)),
        }
    }

    /// The exact edits of a file that a finding suggests, and then those of its notes that are
    /// labels.
    fn fixes(
        &self,
        alloc: Global,
        file: usize,
        head: &Told<'_>,
        mut marks: &[Mark<'_, '_>],
    ) -> Result<Vec<FoundFix>, AllocError>
        requires texts { AreTexts self.now.texts.items self.now.found.files }
        requires file { file < length self.now.found.files }
        ensures { IfOk result (λ it. map fix_view it.items
            ≡ held_fixes (file_at self.now.found.files file).held (told_parts head.now)
            (map mark_parts marks.entry.now)) }
    {
        let Some(text) = self.text(file) else {
            return Ok(Vec::new(alloc));
        };
        let mut fixes = head.fixes(alloc, text)?;
        while let [mark, rest @ ..] = marks {
            if mark.span.is_some() {
                let mut more = mark.note.fixes(alloc, text)?;
                fixes.append(&mut more)?;
            }
            marks = rest;
        }
        Ok(fixes)
    }
}
