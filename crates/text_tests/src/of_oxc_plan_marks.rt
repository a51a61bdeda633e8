// Tab widths and columns by example.
ghost use Rattle.std.specs.Prelude.{◌≡◌};

use oxc_plan::{Row, TabWidth, column_of};

/// The first row of a source, with this text and no break.
fn row_of(text: &str) -> Row<'_>
    ensures offset { result.offset ≡ 0 }
    ensures text { result.text.now ≡ text.now }
{
    Row {
        number: 1,
        offset: 0,
        length: text.len(),
        text,
    }
}

/// The text of a row, an offset, whether it is a start, how many columns the tab stops are apart,
/// and its column.
type Example = (&'static str, usize, bool, usize, usize);

const COLUMNS: [Example; 15] = [
    ("\u{e9}\txyz", 0, true, 4, 0),
    ("\u{e9}\txyz", 1, true, 4, 0),
    ("\u{e9}\txyz", 1, false, 4, 1),
    ("\u{e9}\txyz", 3, true, 4, 4),
    ("\u{e9}\txyz", 5, true, 4, 6),
    ("\u{e9}\txyz", 6, false, 4, 7),
    ("\u{e9}\txyz", 7, false, 4, 8),
    ("\u{65e5}\u{672c} x", 6, true, 4, 4),
    ("\t\u{65e5}\u{301}x", 6, true, 4, 6),
    ("\u{1b}[31mred", 8, true, 4, 3),
    ("a\tb\x7fc", 4, true, 4, 6),
    ("a\tb", 2, true, 1, 2),
    ("\tlet x", 5, true, 2, 6),
    ("\u{e9}\txyz", 5, true, 16, 18),
    ("x", 1, false, 16, 1),
];

/// Whether an example is true.
fn holds(example: &Example) -> bool {
    let (text, offset, at_start, width, column) = *example;
    match TabWidth::new(width) {
        Some(tabs) => text.len() < 100
            && column_of(&row_of(text), offset, at_start, tabs) == column,
        None => false,
    }
}

#[test]
fn a_column_is_the_width_of_the_text_before(rt: HostRuntime) {
    for example in &COLUMNS {
        assert!(rt; holds(example), "{}", example.1);
    }
}

#[test]
fn tab_stops_are_from_one_to_sixteen_columns_apart(rt: HostRuntime) {
    assert!(rt;
        TabWidth::new(0).is_none() && TabWidth::new(17).is_none() && TabWidth::default().get() == 4
    );
}
