//! What the rows of a list say.
ghost use Rattle.std.specs.Prelude.{◌≡◌, map, option_map};
ghost use Rattle.std.specs.Option.{option_copied};
ghost use Rattle.std.specs.Str.{bytes_eq};
ghost use Rattle.json_forms.specs.Rows.{among, constant as constant_of, is_said as said_so};
ghost use Rattle.json_forms.specs.Rows.{part as part_of, paths_in as paths_under};
ghost use Rattle.json_forms.specs.Rows.{unit_named as unit_of_name, unit_of, word_in as word_under};

use crate::form::{Row, Unit};
use crate::keys::UNIT;
use json_spots::Path;

pub(crate) fn is_key(own: &str, key: &str) -> bool
    ensures { result ≡ bytes_eq own.now key.now }
{
    own == key
}

fn paths_in<'f>(row: &'f Row<'f>, key: &str) -> Option<&'f [Path<'f>]>
    ensures { option_copied result ≡ paths_under key.now row.now }
{
    match row {
        Row::Part(own, paths) => {
            if is_key(own, key) {
                Some(paths.as_slice())
            } else {
                None
            }
        }
        _ => None,
    }
}

/// The paths of a part; none if no row has it.
pub(crate) fn part<'f>(rows: &'f [Row<'f>], key: &str) -> &'f [Path<'f>]
    ensures { result.now ≡ part_of rows.now key.now }
{
    for row in rows {
        if let Some(paths) = paths_in(row, key) {
            return paths;
        }
    }
    &[]
}

fn word_in<'t>(row: &Row<'t>, key: &str) -> Option<&'t str>
    ensures { option_map (λ text. text.now) result ≡ word_under key.now row.now }
{
    match row {
        Row::Constant(own, word) => { if is_key(own, key) { Some(*word) } else { None } }
        _ => None,
    }
}

/// The word of a constant, if a row has it.
pub(crate) fn constant<'t>(rows: &[Row<'t>], key: &str) -> Option<&'t str>
    ensures { option_map (λ text. text.now) result ≡ constant_of rows.now key.now }
{
    for row in rows {
        if let Some(word) = word_in(row, key) {
            return Some(word);
        }
    }
    None
}

/// Whether a constant is said, and is this word.
pub(crate) fn is_said(rows: &[Row<'_>], key: &str, word: &str) -> bool
    ensures { result ≡ said_so rows.now key.now word.now }
{
    match constant(rows, key) {
        Some(own) => is_key(own, word),
        None => false,
    }
}

pub(crate) const UNITS: [(&str, Unit); 6] = [
    ("bytes", Unit::Bytes),
    ("characters", Unit::Characters),
    ("utf16", Unit::Utf16),
    ("cells4", Unit::Cells4),
    ("cells8", Unit::Cells8),
    ("cells8utf16", Unit::Cells8Utf16),
];

fn unit_among(units: &[(&str, Unit)], name: &str) -> Option<Unit>
    ensures { result ≡ among (map (λ unit. (unit.0.now, unit.1)) units.now) name.now }
{
    for unit in units {
        if is_key(unit.0, name) {
            return Some(unit.1);
        }
    }
    None
}

/// The unit of a name.
#[tactic(auto, unfolding(crate::specs::Rows::unit_names))]
pub(crate) fn unit_named(name: &str) -> Option<Unit>
    ensures { result ≡ unit_of_name name.now }
{
    unit_among(&UNITS, name)
}

/// What columns and offsets count: characters, unless a row says otherwise.
pub(crate) fn unit(rows: &[Row<'_>]) -> Unit
    ensures { result ≡ unit_of rows.now }
{
    match constant(rows, UNIT) {
        Some(name) => match unit_named(name) {
            Some(unit) => unit,
            None => Unit::Characters,
        },
        None => Unit::Characters,
    }
}
