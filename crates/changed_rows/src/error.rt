// Why a diff can't be read.
ghost use Rattle.std.specs.Prelude.{◌≡◌};
ghost use Rattle.changed_rows.specs.declared.error.DiffError.TheVariants.{OutOfMemory};

use std::alloc::AllocError;

/// What has to be in a row instead.
#[derive(Clone, Copy)]
pub enum Wanted {
    /// A diff in UTF-8 without a byte order mark.
    PlainText,
    /// A diff of two files, not a combined one.
    TwoFiles,
    /// `@@ -ROW,COUNT +ROW,COUNT @@`, each number below 2^32.
    HunkHead,
    /// `---` and `+++` before a hunk.
    Names,
    /// A hunk with rows.
    Rows,
    /// So many more rows of the old and of the new file.
    MoreRows {
        /// Rows of the old file.
        old: u32,
        /// Rows of the new file.
        new: u32,
    },
    /// A name as git quotes it.
    Escape,
    /// The end of a quoted name.
    Quote,
}

/// Where a diff is refused, and why.
#[derive(Clone, Copy)]
pub struct Refusal {
    /// The row of the diff, from 1.
    pub row: usize,
    /// What has to be there instead.
    pub wanted: Wanted,
}

/// Why a diff wasn't read.
#[derive(Clone, Copy)]
pub enum DiffError {
    /// It isn't as git writes it.
    Refused(Refusal),
    /// Out of memory.
    OutOfMemory,
}

impl From<AllocError> for DiffError {
    ghost from_gives = { λ _ error. error ≡ OutOfMemory };

    fn from(_error: AllocError) -> DiffError {
        DiffError::OutOfMemory
    }
}
