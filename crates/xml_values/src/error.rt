//! Why an input is not read.
ghost use Rattle.std.specs.Prelude.{◌≡◌};
ghost use Rattle.xml_values.specs.Words.{wanted_text};

use bytecount::count;
use std::alloc::{AllocError, AllocFailed};

/// What XML has to have where it was refused.
#[derive(Clone, Copy, PartialEq, Eq)]
pub enum Wanted {
    /// UTF-8, and an encoding that says so.
    Utf8,
    /// Characters that XML can hold.
    Characters,
    /// An element.
    Element,
    /// Nothing but comments and instructions after the element.
    End,
    /// No document type.
    NoDocumentType,
    /// A comment without `--` that ends.
    Comment,
    /// The end of a CDATA section or an instruction.
    SectionEnd,
    /// `/>`, `>` or an attribute after a blank.
    TagEnd,
    /// `="..."` without `<` after the name of an attribute.
    Value,
    /// An attribute of another name.
    OtherName,
    /// At most 64 names in an element.
    FewerNames,
    /// `lt`, `gt`, `amp`, `quot`, `apos` or the number of a character, and `;`.
    Reference,
    /// No `]]>` in a text.
    NoSectionEnd,
    /// The end tag of the element that is open.
    EndTag,
    /// Elements that nest at most 127 deep.
    LessDepth,
}

impl Wanted {
    /// What is wanted, in words.
    pub fn words(self) -> &'static str
        ensures { result.now ≡ wanted_text self }
    {
        match self {
            Wanted::Utf8 => "UTF-8",
            Wanted::Characters => "characters of XML",
            Wanted::Element => "an element",
            Wanted::End => "nothing after the element",
            Wanted::NoDocumentType => "no document type",
            Wanted::Comment => "a comment that ends, without -- in it",
            Wanted::SectionEnd => "the end of this section or instruction",
            Wanted::TagEnd => "an attribute after a blank, > or />",
            Wanted::Value => "a value in quotes, without <",
            Wanted::OtherName => "an attribute of another name",
            Wanted::FewerNames => "at most 64 names in an element",
            Wanted::Reference => "&lt; &gt; &amp; &quot; &apos; or the number of a character",
            Wanted::NoSectionEnd => "no ]]> in a text",
            Wanted::EndTag => "the end tag of the element that is open",
            Wanted::LessDepth => "elements that nest at most 127 deep",
        }
    }
}

/// Why an input is not read.
#[derive(Drop)]
pub enum XmlError {
    Refused {
        /// From 1.
        row: usize,
        /// In bytes, from 1.
        column: usize,
        wanted: Wanted,
    },
    OutOfMemory,
}

impl From<AllocError> for XmlError {
    ghost use Rattle.xml_values.specs.declared.error.XmlError.TheVariants.{OutOfMemory};
    ghost use Rattle.std.specs.Prelude.{◌≡◌};

    ghost from_gives = { λ _ e. e ≡ OutOfMemory };

    fn from(_refused: AllocError) -> Self {
        XmlError::OutOfMemory
    }
}

impl<T: Drop> From<AllocFailed<T>> for XmlError {
    ghost use Rattle.xml_values.specs.declared.error.XmlError.TheVariants.{OutOfMemory};
    ghost use Rattle.std.specs.Prelude.{◌≡◌};

    ghost from_gives = { λ _ e. e ≡ OutOfMemory };

    fn from(_refused: AllocFailed<T>) -> Self {
        XmlError::OutOfMemory
    }
}

/// What is before the rest of an input. No clause says that it does.
pub(crate) fn before<'s>(source: &'s [u8], rest: &[u8]) -> &'s [u8] {
    match source.get(..source.len().saturating_sub(rest.len())) {
        Some(before) => before,
        None => source,
    }
}

/// The error at the beginning of the rest of an input, which is refused. No clause says which row
/// and column.
pub(crate) fn refused(source: &[u8], rest: &[u8], wanted: Wanted) -> XmlError {
    let before = before(source, rest);
    let column = before
        .iter()
        .rev()
        .take_while(|byte| **byte != b'\n')
        .count();
    XmlError::Refused {
        row: count(before, b'\n').saturating_add(1),
        column: column.saturating_add(1),
        wanted,
    }
}
