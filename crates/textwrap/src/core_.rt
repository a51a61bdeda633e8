//! The width of a text on a screen.
ghost use Rattle.std.specs.Prelude.{◌≡◌, ◌*◌, ◌≤◌, length};
ghost use Rattle.textwrap.specs.Width.{display_width as width_of_text};

use crate::pen::{moved_over, pen_at_start};

/// The cells that a text takes on a screen: the sum of its characters' widths. Control characters
/// (tabs too) take none. Nor do escape sequences: ESC with the character after it; from ESC `[` to
/// the first character from `@` to `~`; from ESC `]` to BEL, or to ESC and a backslash. An
/// unfinished sequence goes to the text's end.
pub fn display_width(text: &str) -> usize
    ensures exact { result ≡ width_of_text text.now }
    ensures bound { result ≤ 2 * length text.now }
{
    let mut pen = pen_at_start();
    for c in text.chars() {
        pen = moved_over(pen, c);
    }
    pen.width
}
