//! A caller that is proved from contracts alone.
ghost use Rattle.std.specs.Prelude.{◌≡◌, map, option_map};
ghost use Rattle.std.specs.Option.{option_or};
ghost use Rattle.line_shapes.specs.Place.{place as place_there, placed};
ghost use Rattle.line_shapes.specs.Shape.{first_own as own_there, shape_parts};

use line_shapes::place::{Placed, place};
use line_shapes::shape::{Shape, first_own};

/// The place of a line by shapes of one's own, else by those of the table.
pub fn place_by<'a>(shapes: &[Shape<'_>], line: &'a [u8]) -> Option<Placed<'a>>
    ensures { option_map placed result
        ≡ option_or (own_there (map shape_parts shapes.now) line.entry.now)
        (place_there line.entry.now) }
{
    match first_own(shapes, line) {
        Some(placed) => Some(placed),
        None => place(line),
    }
}
