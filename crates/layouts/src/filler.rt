// The line filler.
ghost use Rattle.std.specs.Prelude.{◌≡◌, refl, ◌+◌, ◌≤◌, IfOk};
ghost use Rattle.layouts.specs.FillerLaws.{filling_lawful};
ghost use Rattle.layouts.specs.Filling.{filling, before, Made};
ghost use Rattle.layouts.specs.Lines.{reach, reached};

use crate::lines::accept;
use crate::place::Place;
use faults::{Cause, Fault};
use layout::{Layout, Printing, Refusal};
use pages::Page;
pub use state::{LineFiller, LineMark, Sheet};

mod state;

impl LineFiller {
    // A filler at its opening place: width 20 to 120, height 1 to 90.
    pub fn new(width: usize, height: usize) -> Result<LineFiller, Fault>
        ensures { Made width height result }
    {
        let in_range = (20..=120).contains(&width) && (1..=90).contains(&height);
        if !in_range {
            return Err(Fault::plain(Cause::LayoutSettings));
        }
        Ok(LineFiller {
            sheet: Sheet {
                width: width as u8,
                height: height as u8,
            },
            place: Place::opening(),
        })
    }

    // The place right before the next word, if that has `n` bytes: what is used there lies left of it.
    fn before(&self, n: u8) -> Result<Place, Refusal>
        ensures value { reached result ≡ before self.now.sheet (reach self.now.place) n }
        ensures line { IfOk result (λ q. (1 ≤ q.line) × (q.line ≤ self.now.sheet.height)) }
        ensures room { n ≤ self.now.sheet.width → IfOk result (λ q. q.used + n ≤ self.now.sheet.width) }
    {
        let used = self.place.used;
        if used == 0 {
            return Ok(self.place);
        }
        // the space and the word fit what is left of the line
        if n < self.sheet.width - used {
            return Ok(Place {
                used: used + 1,
                ..self.place
            });
        }
        self.place.next_line(self.sheet.height)
    }
}

impl Layout for LineFiller {
    type Mark = LineMark;

    const LETTER: u8 = b'L';

    ghost LETTER = { 76 };

    ghost meaning = { filling };

    ghost lawful = { filling_lawful };

    ghost lettered = { refl };

    fn rewind(&mut self) {
        self.place = Place::opening();
    }

    fn set(&mut self, word: &[u8]) -> Result<LineMark, Refusal> {
        let n = accept(word, self.sheet.width)?;
        let Place { page, line, used } = self.before(n)?;
        self.place = Place {
            page,
            line,
            used: used + n,
        };
        Ok(LineMark {
            page,
            line,
            column: used + 1,
        })
    }

    fn end_paragraph(&mut self) {
        self.place = self.place.end_paragraph(self.sheet.width);
    }

    fn end_page(&mut self) {
        self.place = self.place.end_page(self.sheet.height, self.sheet.width);
    }

    fn page(&self, mark: LineMark) -> Page {
        mark.page
    }
}

impl Printing for LineFiller {
    fn height(&self) -> u8 {
        self.sheet.height
    }

    fn width(&self) -> u8 {
        self.sheet.width
    }

    fn line_and_column(&self, mark: LineMark) -> (u8, u8) {
        (mark.line, mark.column)
    }
}
