//! The database of source files as tools see it, and its errors.
ghost use Rattle.std.specs.Prelude.{◌≡◌, ℕ, ◌<◌, ◌≤◌, Bool, List, length, ◌⊎◌, IsTrue, IfErr, IfOk};
ghost use Rattle.std.specs.Prelude.{OnOk, MatchResult};
ghost use Rattle.codespan_reporting.specs.Lines.{AreLineStarts, IsLineRange, line_at, line_bytes};
ghost use Rattle.codespan_reporting.specs.Causes.{IsLineRefusal};
ghost use Rattle.codespan_reporting.specs.declared.files.Error.{Error};
ghost use Rattle.std.specs.Str.{IsUtf8};

use std::ops::Range;

/// Why a question about a file has no answer.
#[derive(Clone, Copy, Debug, thiserror::Error, PartialEq, Eq)]
pub enum Error {
    /// A place past the end of the source.
    #[error("place {given} is past the end, {max}")]
    IndexTooLarge {
        /// The requested place, in bytes.
        given: usize,
        /// The place of the source's last byte, or 0 for an empty source.
        max: usize,
    },
    /// A line past the last one.
    #[error("line {given} is not among the {max} lines")]
    LineTooLarge {
        /// The requested line, from 0, or one more for the first line that isn't there.
        given: usize,
        /// How many lines the source has.
        max: usize,
    },
    /// A place inside a character.
    #[error("place {given} is inside a character")]
    InvalidCharBoundary {
        /// The requested place, in bytes.
        given: usize,
    },
}

/// A database of source files.
///
/// Contracts see, for each handle, whether the database holds it, the file's name, its text, where
/// the text's lines start, and which errors, if any, it may give for a file that it holds.
pub trait Files {
    /// The handle of a file in the database.
    type FileId: Copy;

    ghost holds: { Self → Self.FileId → Bool };

    ghost name_in: { Self → Self.FileId → List ℕ };

    ghost text_in: { Self → Self.FileId → List ℕ };

    ghost starts_in: { Self → Self.FileId → List ℕ };

    ghost refuses: { Self → Self.FileId → Error → Type 0 };

    /// Whether the database holds the file. Every other call requires this.
    fn contains(&self, id: Self::FileId) -> bool
        ensures { result ≡ holds self.now id };

    /// The name of the file in messages.
    ///
    /// # Errors
    ///
    /// Those that the database may give (`refuses`).
    fn name(&self, id: Self::FileId) -> Result<&str, Error>
        requires { IsTrue (holds self.now id) }
        ensures { MatchResult result (λ name. name.now ≡ name_in self.now id)
            (λ error. refuses self.now id error) };

    /// The text of the file.
    ///
    /// # Errors
    ///
    /// Those that the database may give (`refuses`).
    fn source(&self, id: Self::FileId) -> Result<&str, Error>
        requires { IsTrue (holds self.now id) }
        ensures { MatchResult result (λ text. text.now ≡ text_in self.now id)
            (λ error. refuses self.now id error) };

    /// The line of a place in bytes, both from 0; past the end the last line. The place is at most
    /// `u32::MAX`.
    ///
    /// # Errors
    ///
    /// Those that the database may give (`refuses`).
    fn line_index(&self, id: Self::FileId, byte_index: usize) -> Result<usize, Error>
        requires held { IsTrue (holds self.now id) }
        requires small { byte_index ≤ u32.MAX }
        ensures { MatchResult result (λ line. line ≡ line_at (starts_in self.now id) byte_index)
            (λ error. refuses self.now id error) };

    /// The bytes of a line, its break included. The line counts from 0 and is at most `u32::MAX`.
    ///
    /// # Errors
    ///
    /// `LineTooLarge`, exactly for a line that the text doesn't have.
    fn line_range(&self, id: Self::FileId, line_index: usize) -> Result<Range<usize>, Error>
        requires held { IsTrue (holds self.now id) }
        requires small { line_index ≤ u32.MAX }
        ensures { MatchResult result
            (λ range. IsLineRange (text_in self.now id)
            (starts_in self.now id) line_index range.start range.end)
            (λ error. IsLineRefusal (length (starts_in self.now id)) line_index error) };

    // The starts are those of the lines of a text.
    ghost lines: { (files : Self) (id : Self.FileId) → IsTrue (holds files id) → IsUtf8 (text_in files id)
        → AreLineStarts (text_in files id) (starts_in files id) };
}

/// The text of a line, its break included, in any database. The line counts from 0 and is at most
/// `u32::MAX`.
///
/// # Errors
///
/// Those of `line_range`, and those that the database may give for the file (`refuses`).
pub fn line_text<F: Files>(files: &F, id: F::FileId, line_index: usize) -> Result<&str, Error>
    requires held { IsTrue (F.holds files.now id) }
    requires small { line_index ≤ u32.MAX }
    ensures text { IfOk result (λ text. text.now ≡ line_bytes (F.text_in files.now id)
        (F.starts_in files.now id) line_index) }
    ensures exists { OnOk result (line_index < length (F.starts_in files.now id)) }
    ensures cause { IfErr result
        (λ error. IsLineRefusal (length (F.starts_in files.now id)) line_index error
        ⊎ F.refuses files.now id error) }
{
    let range = files.line_range(id, line_index)?;
    match files.source(id) {
        Ok(source) => Ok(&source[range.start..range.end]),
        Err(error) => Err(error),
    }
}
