// A text that is edited in place.
ghost use Rattle.std.specs.Prelude.{◌≡◌, ℕ, ◌+◌, ◌-◌, ◌^◌, ◌<◌, ◌≤◌, ◌++◌, ◌∷◌, [], true, false};
ghost use Rattle.std.specs.Prelude.{Ok, IsOk, IfOk, OnOk, OnErr, MatchBool, MatchResult, List};
ghost use Rattle.std.specs.Prelude.{IsSome, IfSome, ◌↔◌};
ghost use Rattle.std.specs.Prelude.{length, nat_lt, map, take, string_bytes, string_len};
ghost use Rattle.std.specs.Prelude.{string_capacity, vec_len, vec_capacity};
ghost use Rattle.std.specs.Str.{IsCharBoundary};
ghost use Rattle.source_location.specs.Breaks.{breaks_of};
ghost use Rattle.source_location.specs.Rows.{line_starts as row_starts, row_count, row_start};
ghost use Rattle.source_location.specs.Index.{Fits};
ghost use Rattle.source_edit.specs.Edits.{Change, Editing, change_of, edited, after_edit};
ghost use Rattle.source_edit.specs.Edits.{after_edits};
ghost use Rattle.source_edit.specs.Causes.{IsAcceptable, AreAcceptable, IsCause, IsCauseAmong};
ghost use Rattle.source_edit.specs.Starts.{starts_between, row_range};
ghost use Rattle.source_edit.specs.Ready.{IsReady, KeepsWhatGoes};

use crate::edit::check;
use crate::starts::{put_starts, rows_near, shift_behind, starts_in};
use crate::{Edit, EditError};
use source_location::LineIndex;
use std::alloc::{AllocError, Global};
use std::marker::Model;
use text_size::{TextRange, TextSize};

/// What it takes to undo an edit.
#[derive(Drop)]
struct Step {
    /// The range of the inserted bytes.
    written: TextRange,
    /// The bytes that were replaced.
    removed: String,
    /// The rows that started among those bytes, or right at their ends.
    starts: Vec<TextSize>,
}

/// A text of fewer than `u32::MAX` bytes that is edited in place, with its row starts and its
/// history.
///
/// Contracts see the text and its history: the list of texts to which [`undo`](EditText::undo) goes
/// back, the latest last. An accepted edit appends the text of that moment. No copies of the text
/// are kept, only the bytes that each edit removed.
#[derive(Drop)]
pub struct EditText {
    text: String,
    line_starts: Vec<TextSize>,
    steps: Vec<Step>,
    alloc: Global,
}

impl Model for EditText {
    ghost use Rattle.source_edit.specs.Edits.{Editing};
    ghost use Rattle.source_edit.specs.Steps.{editing_of, IsKept};

    ghost Value = { Editing };

    ghost view = { editing_of };

    ghost invariant = { IsKept };
}

impl EditText {
    /// A text with no history. It has fewer than `u32::MAX` bytes.
    ///
    /// # Errors
    ///
    /// Out of memory.
    pub fn new(alloc: Global, text: String) -> Result<EditText, AllocError>
        requires { Fits (string_bytes text) }
        ensures { IfOk result (λ made. made ≡ record { text = string_bytes text; history = [] }) }
    {
        let index = LineIndex::from_source_text(alloc, text.as_str())?;
        let line_starts = Vec::from_slice(alloc, index.line_starts())?;
        Ok(EditText {
            text,
            line_starts,
            steps: Vec::new(alloc),
            alloc,
        })
    }

    /// The text as it is now. It has fewer than `u32::MAX` bytes.
    pub fn text(&self) -> &str
        ensures text { result.now ≡ self.now.text }
        ensures fits { Fits result.now }
    {
        self.text.as_str()
    }

    /// Where each row of the text starts: 0, and the place after each LF, CR or CRLF.
    pub fn line_starts(&self) -> &[TextSize]
        ensures { result.now ≡ row_starts (breaks_of self.now.text) }
    {
        self.line_starts.as_slice()
    }

    /// How many rows the text has: one more than it has breaks.
    pub fn line_count(&self) -> usize
        ensures { result ≡ row_count self.now.text }
    {
        self.line_starts.len()
    }

    /// The range of a row with its break, by its number from 0; `None` if there is no such row.
    pub fn line_range(&self, line: usize) -> Option<TextRange>
        ensures some { IsSome result ↔ (line < row_count self.now.text) }
        ensures value { IfSome result (λ range. range ≡ row_range self.now.text line) }
    {
        if line >= self.line_starts.len() {
            return None;
        }
        let start = self.row_start(line);
        let end = self.row_start(line + 1);
        Some(TextRange::new(start, end))
    }

    /// Where a row starts; past the last row the text's end.
    fn row_start(&self, row: usize) -> TextSize
        ensures { result ≡ row_start (length self.now.text) (breaks_of self.now.text) row }
    {
        let starts = self.line_starts();
        if row < starts.len() {
            starts[row]
        } else {
            TextSize::new(self.text().len() as u32)
        }
    }

    /// The text. The row starts and the history are dropped.
    pub fn into_text(self) -> String
        ensures { string_bytes result ≡ self.text }
    {
        let EditText {
            text,
            line_starts: _,
            steps: _,
            alloc: _,
        } = self;
        text
    }

    /// Clears the history: no edit made so far can be undone. The memory that it took is freed, and
    /// so is the room that was reserved for undoing.
    pub fn forget(&mut self)
        ensures text { self.new.text ≡ self.old.text }
        ensures history { self.new.history ≡ [] }
    {
        self.steps = Vec::new(self.alloc);
        self.text.shrink_to_fit();
        self.line_starts.shrink_to_fit();
    }

    /// How many edits can be undone.
    pub fn depth(&self) -> usize
        ensures { result ≡ length self.now.history }
    {
        self.steps.len()
    }

    /// Edits the text.
    ///
    /// # Errors
    ///
    /// `Outside` where the range ends past the text; else `NotBoundary` where its start, or else
    /// its end, is inside a character; else `TooLong` where the new text would have `u32::MAX`
    /// bytes or more; else `OutOfMemory`. The text, its row starts and its history don't change.
    pub fn apply(&mut self, edit: Edit) -> Result<(), EditError>
        ensures accepted { OnOk result (self.new ≡ after_edit self.old (change_of edit)) }
        ensures cause { MatchResult result (λ _. IsAcceptable self.old.text (change_of edit))
            (λ error. IsCause 0 self.old.text (change_of edit) error) }
        ensures unchanged { OnErr result (self.new ≡ self.old) }
    {
        self.apply_at(0, &edit)
    }

    /// Makes each of the edits in turn, on the text that the one before left: all, or none.
    ///
    /// # Errors
    ///
    /// Those of [`EditText::apply`], for the first edit that can't be made, with its index in the
    /// list. The text, its row starts and its history are as they were before the first edit.
    pub fn apply_all(&mut self, edits: Vec<Edit>) -> Result<(), EditError>
        ensures accepted { OnOk result (self.new
            ≡ after_edits self.old (map change_of edits.items)) }
        ensures cause { MatchResult result (λ _. AreAcceptable self.old.text (map change_of edits.items))
            (λ error. IsCauseAmong 0 self.old.text (map change_of edits.items) error) }
        ensures unchanged { OnErr result (self.new ≡ self.old) }
    {
        for (place, edit) in edits.iter().enumerate() {
            if let Err(error) = self.apply_at(place, edit) {
                self.step_back_by(place);
                return Err(error);
            }
        }
        Ok(())
    }

    /// Goes back to the latest text of the history; false exactly where there is none.
    ///
    /// # Errors
    ///
    /// None: the edit took the memory that this needs.
    pub fn undo(&mut self) -> Result<bool, AllocError>
        ensures said { result ≡ Ok (nat_lt 0 (length self.old.history)) }
        ensures latest { 0 < length self.old.history
            → self.old.history ≡ self.new.history ++ self.new.text ∷ [] }
        ensures reverts { (before : Editing) (change : Change)
            → self.old ≡ after_edit before change → self.new ≡ before }
        ensures none { self.old.history ≡ [] → self.new ≡ self.old }
    {
        Ok(self.step_back())
    }

    /// Makes an edit, given its index in its list.
    fn apply_at(&mut self, place: usize, edit: &Edit) -> Result<(), EditError>
        ensures accepted { OnOk result (self.new ≡ after_edit self.old (change_of edit.now)) }
        ensures cause { MatchResult result (λ _. IsAcceptable self.old.text (change_of edit.now))
            (λ error. IsCause place self.old.text (change_of edit.now) error) }
        ensures unchanged { OnErr result (self.new ≡ self.old) }
    {
        check(place, self.text.as_str(), edit)?;
        if self.steps.reserve(1).is_err() {
            return Err(EditError::OutOfMemory { edit: place });
        }
        let Ok((starts, step)) = prepare(self.alloc, &mut self.text, &mut self.line_starts, edit)
        else {
            return Err(EditError::OutOfMemory { edit: place });
        };
        put(
            &mut self.text,
            &mut self.line_starts,
            edit.range,
            edit.insert.as_str(),
            starts.as_slice(),
        );
        self.steps.push_reserved(step);
        Ok(())
    }

    /// Undoes one edit, and returns whether there was one.
    fn step_back(&mut self) -> bool
        ensures { MatchBool result (self.old.history ≡ self.new.history ++ self.new.text ∷ [])
            ((self.old.history ≡ []) × (self.new ≡ self.old)) }
    {
        let Some(step) = self.steps.pop() else {
            return false;
        };
        put(
            &mut self.text,
            &mut self.line_starts,
            step.written,
            step.removed.as_str(),
            step.starts.as_slice(),
        );
        true
    }

    /// Undoes `count` edits.
    fn step_back_by(&mut self, count: usize)
        ensures { (before : Editing) (changes : List Change) → length changes ≡ count
            → self.old ≡ after_edits before changes → self.new ≡ before }
    {
        for _ in 0..count {
            self.step_back();
        }
    }
}

/// Reserves the room that an edit and undoing it need, and finds the rows that start in what it
/// inserts and in what it removes. The text and its row starts don't change.
fn prepare(
    alloc: Global,
    text: &mut String,
    line_starts: &mut Vec<TextSize>,
    edit: &Edit,
) -> Result<(Vec<TextSize>, Step), AllocError>
    requires acceptable { IsAcceptable (string_bytes text.old) (change_of edit.now) }
    requires indexed { line_starts.old.items ≡ row_starts (breaks_of (string_bytes text.old)) }
    ensures text { string_bytes text.new ≡ string_bytes text.old }
    ensures starts { line_starts.new.items ≡ line_starts.old.items }
    ensures text_room { string_capacity text.old ≤ string_capacity text.new }
    ensures starts_room { vec_capacity line_starts.old ≤ vec_capacity line_starts.new }
    ensures ready { IfOk result (λ made. IsReady (string_capacity text.new)
        (vec_capacity line_starts.new) (string_bytes text.old)
        (change_of edit.now) made.0.items made.1) }
{
    let step = step_of(alloc, text.as_str(), line_starts.as_slice(), edit)?;
    let starts = starts_near(alloc, text.as_str(), edit)?;
    text.reserve(edit.insert.len())?;
    line_starts.reserve(starts.len())?;
    Ok((starts, step))
}

/// What undoing an edit will need, given the text and its row starts.
fn step_of(
    alloc: Global,
    text: &str,
    line_starts: &[TextSize],
    edit: &Edit,
) -> Result<Step, AllocError>
    requires acceptable { IsAcceptable text.now (change_of edit.now) }
    requires indexed { line_starts.now ≡ row_starts (breaks_of text.now) }
    ensures { IfOk result (λ step. KeepsWhatGoes text.now (change_of edit.now) step) }
{
    let (start, end) = (edit.range.start(), edit.range.end());
    let removed = String::from_str(alloc, &text[start.to_usize()..end.to_usize()])?;
    let (first, behind) = rows_near(line_starts, edit.range);
    let starts = Vec::from_slice(alloc, &line_starts[first..behind])?;
    let last = TextSize::new((start.to_usize() + edit.insert.len()) as u32);
    Ok(Step {
        written: TextRange::new(start, last),
        removed,
        starts,
    })
}

/// The rows that will start in what an edit inserts, or right at its ends.
fn starts_near(alloc: Global, text: &str, edit: &Edit) -> Result<Vec<TextSize>, AllocError>
    requires { IsAcceptable text.now (change_of edit.now) }
    ensures { IfOk result (λ starts. starts.items
        ≡ starts_between (edited text.now (change_of edit.now)) (change_of edit.now).start
        ((change_of edit.now).start + length (change_of edit.now).insert)) }
{
    let (start, end) = (edit.range.start().to_usize(), edit.range.end().to_usize());
    let bytes = text.as_bytes();
    starts_in(
        alloc,
        &bytes[..start],
        edit.insert.as_bytes(),
        &bytes[end..],
    )
}

/// Replaces a range of a text, and its row starts near the range by those in and at the ends of
/// what is inserted. There is room for both.
fn put(
    text: &mut String,
    line_starts: &mut Vec<TextSize>,
    range: TextRange,
    insert: &str,
    starts: &[TextSize],
)
    requires acceptable { IsAcceptable (string_bytes text.old)
        (record { start = range.0; end = range.1; insert = insert.now }) }
    requires indexed { line_starts.old.items ≡ row_starts (breaks_of (string_bytes text.old)) }
    requires starts { starts.now ≡ starts_between
        (edited (string_bytes text.old)
        (record { start = range.0; end = range.1; insert = insert.now })) range.0
        (range.0 + length insert.now) }
    requires text_room { string_len text.old + length insert.now ≤ string_capacity text.old }
    requires starts_room { vec_len line_starts.old + length starts.now
        ≤ vec_capacity line_starts.old }
    ensures edited { string_bytes text.new ≡ edited (string_bytes text.old)
        (record { start = range.0; end = range.1; insert = insert.now }) }
    ensures indexed { line_starts.new.items ≡ row_starts (breaks_of (string_bytes text.new)) }
    ensures text_room { string_capacity text.old ≤ string_capacity text.new }
    ensures starts_room { vec_capacity line_starts.old ≤ vec_capacity line_starts.new }
    ensures start { IsCharBoundary (string_bytes text.new) range.0 }
    ensures end { IsCharBoundary (string_bytes text.new) (range.0 + length insert.now) }
{
    let (from, to) = (range.start().to_usize(), range.end().to_usize());
    let (first, behind) = rows_near(line_starts.as_slice(), range);
    shift_behind(line_starts, behind, (to - from) as u32, insert.len() as u32);
    put_starts(line_starts, first, behind, starts);
    text.replace_range(from..to, insert).unwrap();
}
