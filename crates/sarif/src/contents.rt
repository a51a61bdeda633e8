//! The texts of files that a log contains.
ghost use Rattle.std.specs.Prelude.{◌≡◌, ◌∷◌, List, IfOk, OnOk};
ghost use Rattle.sarif_log.specs.Log.{Artifact as MeantArtifact, artifact_view, names_view};
ghost use Rattle.sarif.specs.Seen.{borrowed};
ghost use Rattle.sarif.specs.Contents.{AreContents};
ghost use Rattle.sarif.specs.Texts.{contents_named};

use crate::resolving::name_of;
use sarif_log::{Artifact, Names};
use std::alloc::{AllocError, Global};
use std::collections::BTreeMap;
use std::marker::Model;

/// What the names of a run mean, and the contents of its artifacts, by their names. Contracts see
/// what the names mean.
#[derive(Drop)]
pub(crate) struct Contents<'s> {
    names: &'s Names,
    /// Of each name, the contents of its first artifact that has some.
    by_name: BTreeMap<String, &'s str>,
}

impl<'s> Model for Contents<'s> {
    ghost use Rattle.sarif_log.specs.Log.{Names as MeantNames, names_view};
    ghost use Rattle.sarif.specs.Contents.{AreContents};

    ghost Value = { MeantNames };

    ghost view = { λ s. names_view s.names.now };

    ghost invariant = { λ s. AreContents (names_view s.names.now)
        (names_view s.names.now).artifacts s.by_name };
}

impl<'s> Contents<'s> {
    /// What these names mean.
    #[tactic(auto, unfolding(sarif_log::specs::Log::names_view))]
    pub(crate) fn new(alloc: Global, names: &'s Names) -> Result<Contents<'s>, AllocError>
        ensures { IfOk result (λ it. it ≡ names_view names.entry.now) }
    {
        let mut by_name = BTreeMap::new(alloc);
        let mut at = names.artifacts.len();
        while at > 0 {
            at -= 1;
            put_contents(alloc, names, &names.artifacts[at], &mut by_name)?;
        }
        Ok(Contents { names, by_name })
    }

    /// The names.
    pub(crate) fn names(&self) -> &'s Names
        ensures { names_view result.now ≡ self.now }
    {
        self.names
    }

    /// The contents of the first artifact of a name that has some.
    pub(crate) fn named(&self, name: &str) -> Option<&'s str>
        ensures { borrowed result ≡ contents_named self.now name.now self.now.artifacts }
    {
        match self.by_name.get(name) {
            Some(text) => Some(*text),
            None => None,
        }
    }
}

/// Puts the contents of an artifact under its name, if it has both.
#[tactic(auto, using(crate::proofs::ContentsLemmas::contents_rules), unfolding(sarif_log::specs::Log::artifact_view))]
fn put_contents<'s>(
    alloc: Global,
    names: &Names,
    artifact: &'s Artifact,
    by_name: &mut BTreeMap<String, &'s str>,
) -> Result<(), AllocError>
    ensures { OnOk result ((rest : List MeantArtifact)
        → AreContents (names_view names.now) rest by_name.old
        → AreContents (names_view names.now) (artifact_view artifact.entry.now ∷ rest)
        by_name.new) }
{
    let Some(text) = &artifact.contents else {
        return Ok(());
    };
    let Some(name) = name_of(alloc, names, &artifact.location)? else {
        return Ok(());
    };
    by_name.insert(name, text.as_str())?;
    Ok(())
}
