//! How severe a finding is.
ghost use Rattle.std.specs.Prelude.{◌≡◌};
ghost use Rattle.std.specs.Str.{str_eq_ignore_ascii_case};
ghost use Rattle.json_spots.specs.Spot.{spot_view};
ghost use Rattle.json_forms.specs.Severity.{among, default_of, known as known_of};
ghost use Rattle.json_forms.specs.Severity.{named as named_of};
ghost use Rattle.json_forms.specs.Severity.{own as own_of, row_level as level_in, said_word};
ghost use Rattle.json_forms.specs.Severity.{severity_of, words_view};

use crate::form::Row;
use crate::keys::{AS, DEFAULT, LETTER, SEVERITY};
use crate::rows::{constant, is_said, part};
use crate::said::text_at;
use json_spots::Spot;
use oxc_protocol::Severity;

/// What words mean, in any case. A word that isn't here is an error.
pub(crate) const WORDS: [(&str, Severity); 47] = [
    ("error", Severity::Error),
    ("err", Severity::Error),
    ("fatal", Severity::Error),
    ("failure", Severity::Error),
    ("failed", Severity::Error),
    ("ice", Severity::Error),
    ("critical", Severity::Error),
    ("blocker", Severity::Error),
    ("high", Severity::Error),
    ("e", Severity::Error),
    ("f", Severity::Error),
    ("2", Severity::Error),
    ("warning", Severity::Warning),
    ("warn", Severity::Warning),
    ("major", Severity::Warning),
    ("medium", Severity::Warning),
    ("moderate", Severity::Warning),
    ("w", Severity::Warning),
    ("1", Severity::Warning),
    ("note", Severity::Advice),
    ("info", Severity::Advice),
    ("information", Severity::Advice),
    ("informational", Severity::Advice),
    ("hint", Severity::Advice),
    ("help", Severity::Advice),
    ("advice", Severity::Advice),
    ("suggestion", Severity::Advice),
    ("notice", Severity::Advice),
    ("style", Severity::Advice),
    ("convention", Severity::Advice),
    ("refactor", Severity::Advice),
    ("performance", Severity::Advice),
    ("portability", Severity::Advice),
    ("recommendation", Severity::Advice),
    ("low", Severity::Advice),
    ("minor", Severity::Advice),
    ("trivial", Severity::Advice),
    ("none", Severity::Advice),
    ("off", Severity::Advice),
    ("ignored", Severity::Advice),
    ("ignore", Severity::Advice),
    ("i", Severity::Advice),
    ("c", Severity::Advice),
    ("r", Severity::Advice),
    ("0", Severity::Advice),
    ("error: internal compiler error", Severity::Error),
    ("failure-note", Severity::Advice),
];

fn is_same(word: &str, text: &[u8]) -> bool
    ensures { result ≡ str_eq_ignore_ascii_case word.now text.now }
{
    word.as_bytes().eq_ignore_ascii_case(text)
}

/// What the first of some words means that a text is, in any case.
fn severity_among(words: &[(&str, Severity)], text: &[u8]) -> Option<Severity>
    ensures { result ≡ among (words_view words.now) text.now }
{
    for word in words {
        if is_same(word.0, text) {
            return Some(word.1);
        }
    }
    None
}

#[tactic(auto, unfolding(crate::specs::Severity::known_words))]
fn severity_known(text: &[u8]) -> Severity
    ensures { result ≡ known_of text.now }
{
    match severity_among(&WORDS, text) {
        Some(severity) => severity,
        None => Severity::Error,
    }
}

fn row_level(row: &Row<'_>, text: &[u8]) -> Option<Severity>
    ensures { result ≡ level_in text.now row.now }
{
    match row {
        Row::Level(words) => severity_among(words, text),
        _ => None,
    }
}

/// What a text means by the list's own words.
fn own_severity(rows: &[Row<'_>], text: &[u8]) -> Option<Severity>
    ensures { result ≡ own_of rows.now text.now }
{
    for row in rows {
        if let Some(severity) = row_level(row, text) {
            return Some(severity);
        }
    }
    None
}

fn severity_named(rows: &[Row<'_>], text: &[u8]) -> Severity
    ensures { result ≡ named_of rows.now text.now }
{
    match own_severity(rows, text) {
        Some(severity) => severity,
        None => severity_known(text),
    }
}

/// The word for the severity: the first letter, if the list says so.
fn word<'v>(rows: &[Row<'_>], text: &'v [u8]) -> &'v [u8]
    ensures { result.now ≡ said_word rows.now text.now }
{
    if is_said(rows, AS, LETTER) && !text.is_empty() {
        &text[..1]
    } else {
        text
    }
}

fn default_severity(rows: &[Row<'_>]) -> Severity
    ensures { result ≡ default_of rows.now }
{
    match constant(rows, DEFAULT) {
        Some(name) => severity_known(name.as_bytes()),
        None => Severity::Error,
    }
}

/// How severe an element's finding is: by the list's own words, then by those of all; a word that
/// neither has is an error. Without a word the list's default counts, else it is an error.
pub(crate) fn severity<'f>(rows: &'f [Row<'f>], spot: &Spot<'_, '_>) -> Severity
    ensures { result ≡ severity_of rows.now (spot_view spot.now) }
{
    match text_at(part(rows, SEVERITY), spot) {
        Some(text) => severity_named(rows, word(rows, text.as_bytes())),
        None => default_severity(rows),
    }
}
