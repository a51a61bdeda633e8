// The values of an object, taken out of it by their keys. An object has no other key if nothing
// remains.
ghost use Rattle.std.specs.Prelude.{◌≡◌, [], codes, is_some, option_map};
ghost use Rattle.serde_json.specs.View.{view, members_view};
ghost use Rattle.serde_json.specs.Find.{get_member};
ghost use Rattle.documents.specs.Fields.{Finds};
ghost use Rattle.documents.specs.Kinds.{only_keys, without};
ghost use Rattle.documents.specs.declared.document.Version.{Version};
ghost use Rattle.documents.specs.Document.{byte_keys, document_keys, file_keys, report_keys};
ghost use Rattle.documents.specs.Document.{row_keys};

use serde_json::{Map, Value};

/// The value of a key, if the key is there.
#[derive(Drop)]
pub(crate) struct Found {
    pub(crate) value: Option<Value>,
}

/// The values of a file's keys, and whether it has no other key.
#[derive(Drop)]
pub(crate) struct FileFields {
    pub(crate) name: Found,
    pub(crate) source: Found,
    pub(crate) are_all: bool,
}

pub(crate) fn file_fields(mut members: Map<String, Value>) -> FileFields
    ensures name { Finds members.entries (codes "name") result.name }
    ensures source { Finds members.entries (codes "source") result.source }
    ensures all { result.are_all ≡ only_keys file_keys (members_view members.entries) }
{
    FileFields {
        name: take(&mut members, "name"),
        source: take(&mut members, "source"),
        are_all: is_empty(&members),
    }
}

/// The values of the keys of a label by rows and columns, and whether it has no other key.
#[derive(Drop)]
pub(crate) struct RowFields {
    pub(crate) start: Found,
    pub(crate) end: Found,
    pub(crate) text: Found,
    pub(crate) primary: Found,
    pub(crate) are_all: bool,
}

pub(crate) fn row_fields(mut members: Map<String, Value>) -> RowFields
    ensures start { Finds members.entries (codes "start") result.start }
    ensures end { Finds members.entries (codes "end") result.end }
    ensures text { Finds members.entries (codes "text") result.text }
    ensures primary { Finds members.entries (codes "primary") result.primary }
    ensures all { result.are_all ≡ only_keys row_keys (members_view members.entries) }
{
    RowFields {
        start: take(&mut members, "start"),
        end: take(&mut members, "end"),
        text: take(&mut members, "text"),
        primary: take(&mut members, "primary"),
        are_all: is_empty(&members),
    }
}

/// The values of the keys of a label by bytes, and whether it has no other key.
#[derive(Drop)]
pub(crate) struct ByteFields {
    pub(crate) bytes: Found,
    pub(crate) text: Found,
    pub(crate) primary: Found,
    pub(crate) are_all: bool,
}

pub(crate) fn byte_fields(mut members: Map<String, Value>) -> ByteFields
    ensures bytes { Finds members.entries (codes "bytes") result.bytes }
    ensures text { Finds members.entries (codes "text") result.text }
    ensures primary { Finds members.entries (codes "primary") result.primary }
    ensures all { result.are_all ≡ only_keys byte_keys (members_view members.entries) }
{
    ByteFields {
        bytes: take(&mut members, "bytes"),
        text: take(&mut members, "text"),
        primary: take(&mut members, "primary"),
        are_all: is_empty(&members),
    }
}

/// The values of a report's keys.
#[derive(Drop)]
pub(crate) struct ReportFields {
    pub(crate) file: Found,
    pub(crate) labels: Found,
    pub(crate) said: SaidFields,
}

/// The values of the keys of a report's diagnostic, and whether the report has no other key.
#[derive(Drop)]
pub(crate) struct SaidFields {
    pub(crate) message: Found,
    pub(crate) severity: Found,
    pub(crate) scope: Found,
    pub(crate) number: Found,
    pub(crate) help: Found,
    pub(crate) note: Found,
    pub(crate) url: Found,
    pub(crate) are_all: bool,
}

pub(crate) fn report_fields(mut members: Map<String, Value>) -> ReportFields
    ensures file { Finds members.entries (codes "file") result.file }
    ensures labels { Finds members.entries (codes "labels") result.labels }
    ensures message { Finds members.entries (codes "message") result.said.message }
    ensures severity { Finds members.entries (codes "severity") result.said.severity }
    ensures scope { Finds members.entries (codes "scope") result.said.scope }
    ensures number { Finds members.entries (codes "number") result.said.number }
    ensures help { Finds members.entries (codes "help") result.said.help }
    ensures note { Finds members.entries (codes "note") result.said.note }
    ensures url { Finds members.entries (codes "url") result.said.url }
    ensures all { (version : Version) → result.said.are_all ≡ only_keys (report_keys version)
        (members_view members.entries) }
{
    ReportFields {
        file: take(&mut members, "file"),
        labels: take(&mut members, "labels"),
        said: SaidFields {
            message: take(&mut members, "message"),
            severity: take(&mut members, "severity"),
            scope: take(&mut members, "scope"),
            number: take(&mut members, "number"),
            help: take(&mut members, "help"),
            note: take(&mut members, "note"),
            url: take(&mut members, "url"),
            are_all: is_empty(&members),
        },
    }
}

/// The values of a document's keys, and whether it has no other key.
#[derive(Drop)]
pub(crate) struct DocumentFields {
    pub(crate) version: Found,
    pub(crate) files: Found,
    pub(crate) reports: Found,
    pub(crate) are_all: bool,
}

pub(crate) fn document_fields(mut members: Map<String, Value>) -> DocumentFields
    ensures version { Finds members.entries (codes "version") result.version }
    ensures files { Finds members.entries (codes "files") result.files }
    ensures reports { Finds members.entries (codes "reports") result.reports }
    ensures all { (version : Version) → result.are_all ≡ only_keys (document_keys version)
        (members_view members.entries) }
{
    DocumentFields {
        version: take(&mut members, "version"),
        files: take(&mut members, "files"),
        reports: take(&mut members, "reports"),
        are_all: is_empty(&members),
    }
}

/// Whether the object has this key.
pub(crate) fn has_key(members: &Map<String, Value>, key: &str) -> bool
    ensures { result ≡ is_some (get_member key.now (members_view members.now.entries)) }
{
    members.contains_key(key)
}

// Takes out the value of a key.
fn take(members: &mut Map<String, Value>, key: &str) -> Found
    ensures value { option_map view result.value
        ≡ get_member key.now (members_view members.old.entries) }
    ensures left { members_view members.new.entries
        ≡ without key.now (members_view members.old.entries) }
{
    Found {
        value: members.remove(key),
    }
}

// Whether no key remains.
#[tactic(auto, using(crate::proofs::KeyLemmas::none_left, crate::proofs::KeyLemmas::some_left))]
fn is_empty(members: &Map<String, Value>) -> bool
    ensures { result ≡ only_keys [] (members_view members.now.entries) }
{
    members.is_empty()
}
