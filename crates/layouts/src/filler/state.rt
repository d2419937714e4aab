// The settings, the marks and the value of a line filler.
ghost use Rattle.std.specs.Prelude.{◌≤◌};
ghost use Rattle.layouts.specs.Lines.{reach, Sound};

use crate::place::Place;
use pages::Page;

// The settings: columns to a line, lines to a page.
#[derive(Clone, Copy)]
pub struct Sheet {
    pub(crate) width: u8,
    pub(crate) height: u8,
    ghost wide: { (20 ≤ width) × (width ≤ 120) },
    ghost high: { (1 ≤ height) × (height ≤ 90) },
}

// The first column of a word.
#[derive(Clone, Copy)]
pub struct LineMark {
    pub(crate) page: Page,
    pub(crate) line: u8,
    pub(crate) column: u8,
}

// Fills lines with words, one space between two words of a line.
#[derive(Drop)]
pub struct LineFiller {
    pub(crate) sheet: Sheet,
    pub(crate) place: Place,
    ghost sound: { Sound sheet.height sheet.width (reach place) },
}
