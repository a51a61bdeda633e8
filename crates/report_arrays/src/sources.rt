// The files in the arrays.
ghost use Rattle.std.specs.Prelude.{◌≡◌, ◌<◌, length, map, nat_lt};
ghost use Rattle.codespan.specs.Texts.{name_of, text_of};
ghost use Rattle.report_arrays.specs.Values.{named};

use crate::shapes::File;
use crate::texts::text;
use std::marker::Model;

/// Files by their numbers, which are indexes in an array. Contracts see their names and sources.
#[derive(Drop)]
pub(crate) struct Sources<'a> {
    texts: &'a str,
    files: &'a [File],
}

impl<'a> Model for Sources<'a> {
    ghost use Rattle.std.specs.Prelude.{List, map};
    ghost use Rattle.codespan.specs.Texts.{NamedText};
    ghost use Rattle.report_arrays.specs.Values.{named};

    ghost Value = { List NamedText };

    ghost view = { λ it. map (named it.texts.now) it.files.now };
}

impl<'a> Sources<'a> {
    pub(crate) fn new(texts: &'a str, files: &'a [File]) -> Self
        ensures { result ≡ map (named texts.now) files.now }
    {
        Sources { texts, files }
    }

    /// Whether there is a file with this number.
    pub(crate) fn contains(&self, file: u32) -> bool
        ensures { result ≡ nat_lt file (length self.now) }
    {
        (file as usize) < self.files.len()
    }

    /// The source of a file.
    #[tactic(auto, using(crate::proofs::Files::source_is))]
    pub(crate) fn source(&self, file: u32) -> &'a str
        requires { file < length self.now }
        ensures { result.now ≡ text_of self.now file }
    {
        text(self.texts, self.files[file as usize].source)
    }

    /// The name of a file.
    #[tactic(auto, using(crate::proofs::Files::name_is))]
    pub(crate) fn name(&self, file: u32) -> &'a str
        requires { file < length self.now }
        ensures { result.now ≡ name_of self.now file }
    {
        text(self.texts, self.files[file as usize].name)
    }
}
