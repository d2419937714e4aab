// The fixed form.
ghost use Rattle.std.specs.Prelude.{◌≡◌, refl, ◌+◌, ◌<◌, ◌≤◌, IfOk};
ghost use Rattle.layouts.specs.FormLaws.{forming_lawful};
ghost use Rattle.layouts.specs.Forming.{forming, before, Made};
ghost use Rattle.layouts.specs.Lines.{reach, reached};

use crate::lines::accept;
use crate::place::Place;
use faults::{Cause, Fault};
use layout::{Layout, Printing, Refusal};
use pages::Page;
pub use state::{CellMark, FixedForm, Grid};

mod state;

impl FixedForm {
    // A form at its opening place: cells of 8 to 40 columns, 1 to 8 to a row, together 20 to 120 columns,
    // and 1 to 60 rows.
    pub fn new(width: usize, cells: usize, rows: usize) -> Result<FixedForm, Fault>
        ensures { Made width cells rows result }
    {
        let in_range = (8..=40).contains(&width)
            && (1..=8).contains(&cells)
            && (1..=60).contains(&rows)
            && (20..=120).contains(&(cells * width));
        if !in_range {
            return Err(Fault::plain(Cause::LayoutSettings));
        }
        Ok(FixedForm {
            grid: Grid {
                width: width as u8,
                cells: cells as u8,
                rows: rows as u8,
            },
            place: Place::opening(),
        })
    }

    // The place right before the next word.
    fn before(&self) -> Result<Place, Refusal>
        ensures value { reached result ≡ before self.now.grid (reach self.now.place) }
        ensures line { IfOk result (λ q. (1 ≤ q.line) × (q.line ≤ self.now.grid.rows)) }
        ensures room { IfOk result (λ q. q.used < self.now.grid.cells) }
    {
        if self.place.used < self.grid.cells {
            return Ok(self.place);
        }
        self.place.next_line(self.grid.rows)
    }
}

impl Layout for FixedForm {
    type Mark = CellMark;

    const LETTER: u8 = b'F';

    ghost LETTER = { 70 };

    ghost meaning = { forming };

    ghost lawful = { forming_lawful };

    ghost lettered = { refl };

    fn rewind(&mut self) {
        self.place = Place::opening();
    }

    fn set(&mut self, word: &[u8]) -> Result<CellMark, Refusal> {
        accept(word, self.grid.width)?;
        let Place { page, line, used } = self.before()?;
        let cell = used + 1;
        self.place = Place {
            page,
            line,
            used: cell,
        };
        Ok(CellMark {
            page,
            row: line,
            cell,
        })
    }

    fn end_paragraph(&mut self) {
        self.place = self.place.end_paragraph(self.grid.cells);
    }

    fn end_page(&mut self) {
        self.place = self.place.end_page(self.grid.rows, self.grid.cells);
    }

    fn page(&self, mark: CellMark) -> Page {
        mark.page
    }
}

impl Printing for FixedForm {
    fn height(&self) -> u8 {
        self.grid.rows
    }

    fn width(&self) -> u8 {
        self.grid.cells * self.grid.width
    }

    fn line_and_column(&self, mark: CellMark) -> (u8, u8) {
        let cell = mark.cell.min(self.grid.cells);
        (mark.row, (cell - 1) * self.grid.width + 1)
    }
}
