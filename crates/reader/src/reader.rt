// A text and a place in it.
ghost use Rattle.std.specs.Prelude.{◌≤◌, length};

use crate::place::Place;

mod reading;

#[derive(Drop)]
pub struct Reader<'a> {
    text: &'a [u8],
    place: Place,
    ghost within: { place.at ≤ length text.now },
    ghost counted: { place.lines ≤ place.at },
}
