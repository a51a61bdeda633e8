//! Laws of drawn snippets: what the definitions mean. Each function does nothing; a caller calls it
//! to use its law.
ghost use Rattle.std.specs.Option.{option_copied};
ghost use Rattle.oxc_plan.specs.Plan.{in_order, snippet_view};
ghost use Rattle.oxc_plan.specs.Rows.{row_view};
ghost use Rattle.oxc_handlers.specs.Colors.{DiffersInColorsOnly};
ghost use Rattle.oxc_handlers.specs.Places.{HasColumns, HasPlaces, HasPlacesUnder, drawn_by_theme};
ghost use Rattle.oxc_handlers.specs.ShownRows.{HasColumnsAsShown};

use crate::theme::GraphicalTheme;
use oxc_plan::{Bar, MarkCells, Row, SnippetPlan};
use oxc_span::LabeledSpan;

/// The law that the theme with colors adds only colors. If no label text, no name and no row holds
/// ESC, a snippet drawn with [`GraphicalTheme::unicode`](crate::GraphicalTheme::unicode), without
/// each ESC up to the next `m`, is the one drawn with
/// [`GraphicalTheme::unicode_nocolor`](crate::GraphicalTheme::unicode_nocolor).
pub fn colors_only(
    _tab: usize,
    _labels: &[LabeledSpan],
    _name: Option<&str>,
    _snippet: &SnippetPlan<'_>,
)
    ensures { DiffersInColorsOnly _tab (in_order _labels.now)
        (option_copied _name.entry) (snippet_view _snippet.now) }
{}

/// The law that a gutter without styles has one character for each of its cells: the bars before
/// the first label that starts or ends, its corner, a line up to the gutter's width, an arrow, and
/// a space.
pub fn gutter_by_places(
    _theme: &GraphicalTheme,
    _labels: &[LabeledSpan],
    _width: usize,
    _bars: &[Bar],
)
    ensures { HasPlaces (drawn_by_theme _theme.now (in_order _labels.now) _width) _bars.now }
{}

/// The law that the gutter of a line under a row, without styles, has one character for each of its
/// cells, for each line of a text beside it: the bars before the first label that ends in the row,
/// then that label's corner and a line, or spaces beside a later line of its text.
pub fn gutter_under_by_places(
    _theme: &GraphicalTheme,
    _labels: &[LabeledSpan],
    _width: usize,
    _bars: &[Bar],
)
    ensures { HasPlacesUnder (drawn_by_theme _theme.now (in_order _labels.now) _width) _bars.now }
{}

/// The law that in an ASCII row the text drawn before an offset, without escapes, has as many
/// characters as the offset's column, for any tab width, and that the drawn row begins with it.
pub fn columns_as_shown(_row: &Row<'_>, _tab: usize)
    ensures { HasColumnsAsShown _tab (row_view _row.now) }
{}

/// The law that a mark line without styles has one character for each column up to the end of its
/// last mark.
pub fn marks_by_columns(_theme: &GraphicalTheme, _labels: &[LabeledSpan], _marks: &[MarkCells])
    ensures { HasColumns (drawn_by_theme _theme.now (in_order _labels.now) 0) _marks.now }
{}
