//! Columns in cells, as columns in characters.
ghost use Rattle.std.specs.Prelude.{◌≡◌, ◌+◌, ◌≤◌};
ghost use Rattle.std.specs.Str.{chars};
ghost use Rattle.json_reports.specs.Cells.{cells_of as cells_by, char_column as column_by};
ghost use Rattle.json_reports.specs.Cells.{passed as passed_in, to_stop as up_to_stop};
ghost use Rattle.json_reports.specs.Cells.{width as width_of};

use json_forms::Unit;

/// The cells of a row, of which a tab takes those up to the next stop.
#[derive(Clone, Copy)]
pub(crate) enum Cells {
    /// Tab stops of 4; each other character takes one cell.
    Four,
    /// Tab stops of 8; each other character takes one cell.
    Eight,
    /// Tab stops of 8; each other character takes a cell for each of its UTF-16 units.
    EightUtf16,
}

/// The cells that columns of a unit count, if they count cells.
pub(crate) fn cells_of(unit: Unit) -> Option<Cells>
    ensures { result ≡ cells_by unit }
{
    match unit {
        Unit::Bytes | Unit::Characters | Unit::Utf16 => None,
        Unit::Cells4 => Some(Cells::Four),
        Unit::Cells8 => Some(Cells::Eight),
        Unit::Cells8Utf16 => Some(Cells::EightUtf16),
    }
}

/// How many cells are left up to the next tab stop.
fn to_stop(cells: Cells, at: usize) -> usize
    ensures value { result ≡ up_to_stop cells at }
    ensures low { 1 ≤ result }
{
    match cells {
        Cells::Four => 4 - at % 4,
        Cells::Eight | Cells::EightUtf16 => 8 - at % 8,
    }
}

/// How many cells a character takes after `at` cells of its row.
fn width(cells: Cells, at: usize, c: char) -> usize
    ensures value { result ≡ width_of cells at c }
    ensures low { 1 ≤ result }
{
    if c == '\t' {
        return to_stop(cells, at);
    }
    match cells {
        Cells::Four | Cells::Eight => 1,
        Cells::EightUtf16 => c.len_utf16(),
    }
}

/// How many characters of a row are before its cell `count`, from 0.
fn passed(cells: Cells, count: u32, row: &str) -> u32
    ensures value { result ≡ passed_in cells count 0 (chars row.now) }
    ensures bound { result ≤ count }
{
    let mut passed = 0;
    let mut at = 0;
    for c in row.chars() {
        let width = width(cells, at, c);
        if count as usize - at < width {
            return passed;
        }
        passed += 1;
        at += width;
    }
    passed
}

/// The column in characters of a column in cells, both from 1.
pub(crate) fn char_column(cells: Cells, row: &str, column: u32) -> u32
    ensures { result ≡ column_by cells (chars row.now) column }
{
    passed(cells, column.saturating_sub(1), row) + 1
}
