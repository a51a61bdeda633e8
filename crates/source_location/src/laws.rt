// Laws of the definitions that the contracts cite: contracts of functions that do nothing.
ghost use Rattle.std.specs.Prelude.{◌≡◌, chars, length};
ghost use Rattle.std.specs.Str.{IsCharBoundary};
ghost use Rattle.source_location.specs.Breaks.{breaks_of, IsBreakList};
ghost use Rattle.source_location.specs.Characters.{char_count};
ghost use Rattle.source_location.specs.Locations.{LeadsBack};

/// The breaks of a text are in order, have one byte or two, share none, and end within the text.
pub fn breaks_keep_apart(_text: &str)
    ensures { IsBreakList (length _text.now) (breaks_of _text.now) }
{}

/// Columns count characters: a text has as many of them as bytes that begin one.
pub fn columns_count_characters(_text: &str)
    ensures { char_count _text.now ≡ length (chars _text.now) }
{}

/// Each boundary of a text is found again from its location; for 0 before a byte order mark the
/// answer is 3, the offset after the mark.
pub fn boundary_is_found_again(_text: &str, _offset: usize)
    requires { IsCharBoundary _text.now _offset }
    ensures { LeadsBack _text.now _offset }
{}
