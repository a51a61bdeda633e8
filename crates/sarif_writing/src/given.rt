//! The locations that tools report for reports without labels.
ghost use Rattle.std.specs.Prelude.{◌≡◌, ◌<◌, IfOk, OnOk, codes, length, option_map};
ghost use Rattle.serde_json.specs.View.{members_view, view};
ghost use Rattle.documents.specs.Written.{put_some, whole_number};
ghost use Rattle.sarif_writing.specs.Written.{bare_location as bare_meant, counted as counted_as};
ghost use Rattle.sarif_writing.specs.Written.{given_region as region_meant, region_given};

use crate::places::reference_value;
use codespan::{FileId, Files};
use found_reports::GivenPlace;
use serde_json::{Map, Value, json, put};
use std::alloc::{AllocError, Global};

/// A file, and the reported location in it.
#[tactic(auto, unfolding(crate::specs::Written::bare_location))]
pub(crate) fn bare_location(
    alloc: Global,
    files: &Files<String>,
    file: FileId,
    place: Option<GivenPlace>,
) -> Result<Value, AllocError>
    requires { file < length files.now }
    ensures { IfOk result (λ value. view value ≡ bare_meant files.now file place) }
{
    let mut members = Map::new(alloc);
    let reference = reference_value(alloc, files, file)?;
    put(&mut members, alloc, "artifactLocation", reference)?;
    put_region(alloc, &mut members, place)?;
    let place = Value::Object(members);
    json!(in alloc; {"physicalLocation": place})
}

/// The region of a location, if it has a row.
fn put_region(
    alloc: Global,
    members: &mut Map<String, Value>,
    place: Option<GivenPlace>,
) -> Result<(), AllocError>
    ensures { OnOk result (members_view members.new.entries
        ≡ put_some (codes "region") (region_given place) (members_view members.old.entries)) }
{
    let Some(place) = place else {
        return Ok(());
    };
    let Some(row) = counted(place.line) else {
        return Ok(());
    };
    put(members, alloc, "region", given_region(alloc, row, place)?)
}

/// A region from a row on, with what else the tool reported.
#[tactic(auto, unfolding(crate::specs::Written::given_region))]
fn given_region(alloc: Global, row: u32, place: GivenPlace) -> Result<Value, AllocError>
    ensures { IfOk result (λ value. view value ≡ region_meant row place) }
{
    let mut members = Map::new(alloc);
    put(&mut members, alloc, "startLine", Value::from(row))?;
    put_number(alloc, &mut members, "startColumn", place.column)?;
    put_number(alloc, &mut members, "endLine", place.end_line)?;
    put_number(alloc, &mut members, "endColumn", place.end_column)?;
    Ok(Value::Object(members))
}

/// A number under a key, if there is one.
fn put_number(
    alloc: Global,
    members: &mut Map<String, Value>,
    key: &str,
    number: Option<u32>,
) -> Result<(), AllocError>
    ensures { OnOk result (members_view members.new.entries
        ≡ put_some key.now (option_map whole_number (counted_as number))
        (members_view members.old.entries)) }
{
    match counted(number) {
        Some(number) => put(members, alloc, key, Value::from(number)),
        None => Ok(()),
    }
}

/// A row or a column; 0 is none.
fn counted(number: Option<u32>) -> Option<u32>
    ensures { result ≡ counted_as number }
{
    match number {
        Some(0) => None,
        _ => number,
    }
}
