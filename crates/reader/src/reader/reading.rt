// Reading a text line by line.
ghost use Rattle.std.specs.Prelude.{◌≡◌};
ghost use Rattle.reader.specs.Laws.{LinesLaw};
ghost use Rattle.std.specs.Iterator.{item_count};
ghost use Rattle.reader.specs.Reading.{front, LineAt, NextLine};
ghost use Rattle.reader.specs.Left.{lines_left, NextOfText};

use crate::place::{Line, Place};
use crate::reader::Reader;
use runs::{AnyBut, run_length};

// Where a text begins.
fn front_of(text: &[u8]) -> Place
    ensures place { result ≡ front }
    ensures law { LinesLaw text.now }
{
    Place { at: 0, lines: 0 }
}

impl<'a> Reader<'a> {
    // A reader at the front of a text.
    pub fn new(text: &'a [u8]) -> Reader<'a>
        ensures text { result.text.now ≡ text.now }
        ensures place { result.place ≡ front }
        ensures law { LinesLaw text.now }
    {
        let place = front_of(text);
        Reader { text, place }
    }

    // How many lines were read.
    pub fn lines_read(&self) -> usize
        ensures { result ≡ self.now.place.lines }
    {
        self.place.lines
    }

    // The next line, and the place after it; none at the end of the text.
    fn line_ahead(&self) -> Option<(Line<'a>, Place)>
        ensures { LineAt self.now.text.now self.now.place result }
    {
        let text = self.text;
        let Place { at: offset, lines } = self.place;
        if offset == text.len() {
            return None;
        }
        let end = offset + run_length::<AnyBut<b'\n'>>(&text[offset..]);
        let next = if end < text.len() { end + 1 } else { end };
        let number = lines + 1;
        let line = Line {
            number,
            offset,
            bytes: &text[offset..end],
        };
        Some((
            line,
            Place {
                at: next,
                lines: number,
            },
        ))
    }

    // The next line, or none at the end of the text.
    pub fn next_line(&mut self) -> Option<Line<'a>>
        ensures text { self.new.text ≡ self.old.text }
        ensures next { NextLine self.old.text.now self.old.place result self.new.place }
    {
        self.next()
    }
}

impl<'a> Iterator for Reader<'a> {
    type Item = Line<'a>;

    ghost next_gives = { NextOfText };

    ghost remaining = { item_count lines_left };

    fn next(&mut self) -> Option<Line<'a>> {
        let (line, after) = self.line_ahead()?;
        self.place = after;
        Some(line)
    }
}
