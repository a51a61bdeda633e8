ghost use Rattle.std.specs.Prelude.{◌≡◌, ◌↔◌, IsTrue};
ghost use Rattle.source_location.specs.Views.{line_view};

use source_location::{
    Line, LineEnding, LineIndex, NewlineWithTrailingNewline, OneIndexed, SourceCode, SourceFile,
    SourceFileBuilder, UniversalNewlineIterator, find_newline, universal_newlines,
};
use std::alloc::{AllocError, Global};
use text_size::{TextRange, TextSize};

// Whether a line came, with that text and at that offset.
fn is_line(line: &Option<Line<'_>>, text: &str, start: u32) -> bool {
    match line {
        Some(line) => line.as_full_str() == text && line.start().to_u32() == start,
        None => false,
    }
}

// Whether the lines of a text come from both ends, each once.
fn come_from_both_ends() -> bool {
    let text = "foo\nbar\n\r\nbaz\rbop";
    let mut lines = UniversalNewlineIterator::from(text);
    is_line(&lines.next_back(), "bop", 14)
        && is_line(&lines.next(), "foo\n", 0)
        && is_line(&lines.next_back(), "baz\r", 10)
        && is_line(&lines.next(), "bar\n", 4)
        && is_line(&lines.next_back(), "\r\n", 8)
        && lines.next().is_none()
}

#[test]
fn lines_come_from_both_ends_once(rt: HostRuntime) {
    assert!(rt; come_from_both_ends());
}

// A text, and where its lines start.
type Starts = (&'static str, &'static [u32]);

const FORWARDS: [Starts; 5] = [
    ("", &[]),
    ("foo\nbar\n\r\nbaz\rbop", &[0, 4, 8, 10, 14]),
    ("foo\nbar\n\r\nbaz\rbop\n", &[0, 4, 8, 10, 14]),
    ("foo\nbar\n\r\nbaz\rbop\n\n", &[0, 4, 8, 10, 14, 18]),
    (
        "thirty-one bytes before a break\r\nand more than thirty-two in the next, whose break is last\n",
        &[0, 33],
    ),
];

// Whether a line came, and starts there.
fn starts_at(line: &Option<Line<'_>>, start: u32) -> bool {
    match line {
        Some(line) => line.start().to_u32() == start,
        None => false,
    }
}

// The lines that come forwards start there, and then none comes.
fn start_forwards(row: &Starts) -> bool {
    if row.0.len() > 1000 {
        return false;
    }
    let mut lines = universal_newlines(row.0);
    for start in row.1 {
        if !starts_at(&lines.next(), *start) {
            return false;
        }
    }
    lines.next().is_none() && lines.next_back().is_none()
}

#[test]
fn lines_come_forwards(rt: HostRuntime) {
    for row in &FORWARDS {
        assert!(rt; start_forwards(row), "{}", row.0);
    }
}

// A line without its break, and where it starts.
const BACKWARDS: [(&str, u32); 5] = [("bop", 13), ("baz", 9), ("", 8), ("bar", 4), ("foo", 0)];

// Whether a line came, has that text without its break, and starts there.
fn is_plain(line: &Option<Line<'_>>, row: &(&str, u32)) -> bool {
    match line {
        Some(line) => line.eq_text(row.0) && line.start().to_u32() == row.1,
        None => false,
    }
}

// Whether these come backwards, and then none.
fn come_backwards() -> bool {
    let mut lines = UniversalNewlineIterator::from("foo\nbar\n\nbaz\rbop\n");
    for row in &BACKWARDS {
        if !is_plain(&lines.next_back(), row) {
            return false;
        }
    }
    lines.next_back().is_none()
}

// A text, and where its last line starts.
const LAST: [(&str, u32); 3] = [
    ("foo\nbop\n\n", 8),
    (
        "the first line has more than thirty-two bytes, a vector\nand so has the last one, with its break at the end\n",
        56,
    ),
    (
        "the first line has more than thirty-two bytes, a vector\n",
        0,
    ),
];

// Whether the last line starts there, by the trait's own call.
fn last_starts(row: &(&str, u32)) -> bool {
    row.0.len() < 1000 && starts_at(&universal_newlines(row.0).last(), row.1)
}

#[test]
fn lines_come_backwards(rt: HostRuntime) {
    assert!(rt; come_backwards());
    for row in &LAST {
        assert!(rt; last_starts(row), "{}", row.1);
    }
}

// Whether an empty line comes after a break at the end.
fn brings_an_empty_line() -> bool {
    let mut lines = NewlineWithTrailingNewline::from("a\r\nb\r");
    is_line(&lines.next(), "a\r\n", 0)
        && is_line(&lines.next(), "b\r", 3)
        && is_line(&lines.next(), "", 5)
        && lines.next().is_none()
}

#[test]
fn a_trailing_break_brings_an_empty_line(rt: HostRuntime) {
    assert!(rt;
        brings_an_empty_line()
            && find_newline("ab\rc\n") == Some((2, LineEnding::Cr))
            && LineEnding::default().as_str() == "\n"
    );
}

// Where a line starts and ends, with its break and without.
fn has_ranges(line: &Line<'_>, start: u32, end: u32, full_end: u32) -> bool {
    let range = line.range();
    let full = line.full_range();
    line.start().to_u32() == start
        && line.end().to_u32() == end
        && line.full_end().to_u32() == full_end
        && range.start() == full.start()
        && range.end() == line.end()
        && full.end() == line.full_end()
}

// Whether the first line of a text has its ranges.
fn first_has_ranges() -> bool {
    match UniversalNewlineIterator::from("ab\r\ncd").next() {
        Some(line) => has_ranges(&line, 0, 2, 4),
        None => false,
    }
}

#[test]
fn a_line_has_its_ranges(rt: HostRuntime) {
    assert!(rt; first_has_ranges());
}

// A file of two rows, whose index is set.
fn file_with_index_set(alloc: Global) -> Result<SourceFile, AllocError> {
    let name = String::from_str(alloc, "a")?;
    let code = String::from_str(alloc, "ab\ncd")?;
    let index = LineIndex::from_source_text(alloc, "ab\ncd")?;
    let mut builder = SourceFileBuilder::new(name, code);
    builder.set_line_index(index);
    builder.finish(alloc)
}

// Whether the second row has its parts.
fn has_parts(code: &SourceCode<'_, '_>) -> bool {
    let at = TextSize::new(3);
    let two = OneIndexed::from_zero_indexed(1);
    code.text().is_char_boundary(3)
        && code.text().is_char_boundary(5)
        && code.up_to(at) == "ab\n"
        && code.after(at) == "cd"
        && code.slice(TextRange::new(at, TextSize::new(5))) == "cd"
        && two.to_usize() <= code.line_count()
        && code.line_start(two) == at
        && code.line_range(two).start() == at
}

fn file_has_parts(alloc: Global) -> bool {
    match file_with_index_set(alloc) {
        Ok(file) => has_parts(&file.to_source_code()),
        Err(_) => false,
    }
}

#[test]
fn parts_of_a_file(rt: HostRuntime) {
    assert!(rt; file_has_parts(rt.alloc()));
}

// A file without an index.
fn plain_file(alloc: Global) -> Result<SourceFile, AllocError> {
    let name = String::from_str(alloc, "a")?;
    let code = String::from_str(alloc, "x\n")?;
    SourceFileBuilder::new(name, code).finish(alloc)
}

// Whether a file and its copy are equal, and have two rows each.
fn are_alike(file: &SourceFile, copy: &SourceFile) -> bool {
    is_same_file(file, copy)
        && is_same_code(&file.to_source_code(), &copy.to_source_code())
        && file.to_source_code().line_count() == 2
        && copy.to_source_code().line_count() == 2
}

fn is_like_its_copy(alloc: Global, file: &SourceFile) -> bool {
    match file.try_clone(alloc) {
        Ok(copy) => are_alike(file, &copy),
        Err(_) => false,
    }
}

#[test]
fn a_file_is_equal_to_its_copy(rt: HostRuntime) {
    let equal = match plain_file(rt.alloc()) {
        Ok(file) => is_like_its_copy(rt.alloc(), &file),
        Err(_) => false,
    };
    assert!(rt; equal);
}

const THREE_ROWS: &str = "x = 1\ny = 2\nz = x + y\n";

// A file of three rows, which is given its index.
fn file_with_index(alloc: Global) -> Result<SourceFile, AllocError> {
    let index = LineIndex::from_source_text(alloc, THREE_ROWS)?;
    let name = String::from_str(alloc, "a")?;
    let code = String::from_str(alloc, THREE_ROWS)?;
    SourceFileBuilder::new(name, code)
        .line_index(index)
        .finish(alloc)
}

// Whether the second row has its text, and a row past the last ends with the text.
fn has_its_rows(code: &SourceCode<'_, '_>) -> bool {
    let two = OneIndexed::from_zero_indexed(1);
    two.to_usize() <= code.line_count()
        && code.line_text(two) == "y = 2\n"
        && code.line_end(OneIndexed::MAX).to_u32() == 22
}

#[test]
fn rows_of_a_file_are_its_slices(rt: HostRuntime) {
    let sliced = match file_with_index(rt.alloc()) {
        Ok(file) => has_its_rows(&file.to_source_code()),
        Err(_) => false,
    };
    assert!(rt; sliced);
}

// Lines are equal where their texts and offsets are.
fn is_same_line(a: &Line<'_>, b: &Line<'_>) -> bool
    ensures { IsTrue result ↔ (line_view a.now ≡ line_view b.now) }
{
    *a == *b
}

// Texts with an index are equal where the texts are.
fn is_same_code(a: &SourceCode<'_, '_>, b: &SourceCode<'_, '_>) -> bool
    ensures { IsTrue result ↔ (a.now ≡ b.now) }
{
    *a == *b
}

// Files are equal where their names and their texts are.
fn is_same_file(a: &SourceFile, b: &SourceFile) -> bool
    ensures { IsTrue result ↔ (a.now ≡ b.now) }
{
    *a == *b
}

// Whether the first of two lines with one text is equal to itself, and not to the second.
fn are_told_apart() -> bool {
    let mut lines = universal_newlines("a\na\n");
    match (lines.next(), lines.next()) {
        (Some(first), Some(second)) => {
            is_same_line(&first, &first) && !is_same_line(&first, &second)
        }
        _ => false,
    }
}

#[test]
fn lines_are_equal_by_text_and_offset(rt: HostRuntime) {
    assert!(rt; are_told_apart());
}
