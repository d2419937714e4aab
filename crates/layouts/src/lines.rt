// What the line filler and the fixed form have in common: lines one below the other, pages one after the other.
// The rest stays two impls of `Layout`: a generic would ask a trait for nearly all its members again, to share three one-line bodies.
ghost use Rattle.std.specs.Prelude.{◌≡◌, length};
ghost use Rattle.layouts.specs.Lines.{accepted, reach, reached, opening, next_line_lem, paragraph_end, page_end};

use crate::place::Place;
use layout::Refusal;
use pages::Page;

// How many bytes a word has, where a layout takes words of at most `width` bytes.
pub(crate) fn accept(word: &[u8], width: u8) -> Result<u8, Refusal>
    ensures { result ≡ accepted width (length word.now) }
{
    let n = word.len();
    if n == 0 || n > 72 || n > width as usize {
        return Err(Refusal::WordTooWide);
    }
    Ok(n as u8)
}

impl Place {
    // Line 1 of page 1, with nothing used.
    pub(crate) fn opening() -> Place
        ensures { reach result ≡ opening }
    {
        Place {
            page: Page::first(),
            line: 1,
            used: 0,
        }
    }

    // The beginning of the next line, which after line `height` is on the next page.
    pub(crate) fn next_line(self, height: u8) -> Result<Place, Refusal>
        ensures { reached result ≡ next_line_lem height (reach self) }
    {
        if self.line < height {
            return Ok(Place {
                line: self.line + 1,
                used: 0,
                ..self
            });
        }
        let page = self.page.next().ok_or(Refusal::PagesUsedUp)?;
        Ok(Place {
            page,
            line: 1,
            used: 0,
        })
    }

    // Uses up the line, if it is begun.
    pub(crate) fn end_paragraph(self, full: u8) -> Place
        ensures { reach result ≡ paragraph_end full (reach self) }
    {
        if self.used == 0 {
            return self;
        }
        Place { used: full, ..self }
    }

    // Uses up the page, but for the opening place.
    pub(crate) fn end_page(self, height: u8, full: u8) -> Place
        ensures { reach result ≡ page_end height full (reach self) }
    {
        if self == Place::opening() {
            return self;
        }
        Place {
            line: height,
            used: full,
            ..self
        }
    }
}
