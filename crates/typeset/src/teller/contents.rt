// Setting the contents: a second reader moves on from heading to heading, so the text is read once more and no oftener.
ghost use Rattle.std.specs.Prelude.{◌≡◌};
ghost use Rattle.compose.specs.Playing.{Plays};
ghost use Rattle.record.specs.Meaning.{position_of};
ghost use Rattle.reader.specs.Reading.{line_of};
ghost use Rattle.typeset.specs.Items.{title_words, items, titles};
ghost use Rattle.typeset.specs.Script.{in_contents, word_acts, entry_acts, contents_acts};
ghost use Rattle.typeset.specs.Shown.{contents_line};
ghost use Rattle.typeset.specs.Tellers.{telling_to};
ghost use Rattle.typeset.specs.Texts.{telling_shown};
ghost use Rattle.typeset.specs.Walking.{NextHeading};

use super::Teller;
use crate::manner::Manner;
use crate::roles::at_line;
use compose::{Compositor, Role};
use faults::Fault;
use manuscript::holds_title;
use numerals::page_text;
use reader::{Line, Reader};
use record::ContentsEntry;

// The next heading, or none at the end of the text.
fn next_heading<'a>(reader: &mut Reader<'a>) -> Option<Line<'a>>
    ensures text { reader.new.text ≡ reader.old.text }
    ensures next { NextHeading reader.old.text.now reader.old.place result reader.new.place }
{
    // Not `for` nor `find`: what a lent reader has left after them is not proved.
    while let Some(line) = reader.next_line() {
        if holds_title(line.bytes) {
            return Some(line);
        }
    }
    None
}

impl<'t, 'n, 'c, C: Compositor> Teller<'t, 'n, 'c, C> {
    // Sets a title as its copy in the contents that the line `asked` asks for.
    fn copy_title(&mut self, heading: Line, asked: usize) -> Result<(), Fault>
        ensures { Plays (telling_to C.playing) self.old (word_acts (telling_shown self.old.telling) (in_contents asked) (title_words (line_of heading.entry))) self.new result }
    {
        self.set_words(true, heading, Manner::InContents(asked))
    }

    // Sets a line of the contents that the line `asked` asks for: number and page of the entry, title of the heading.
    fn set_entry(&mut self, entry: ContentsEntry, heading: Line, asked: usize) -> Result<(), Fault>
        ensures { Plays (telling_to C.playing) self.old (entry_acts (telling_shown self.old.telling) asked (title_words (line_of heading.entry)) (contents_line self.old.telling.style (position_of entry))) self.new result }
    {
        let source = at_line(asked);
        let page = page_text(self.telling.style, entry.page);
        self.say_text(&entry.number.text(), Role::Contents, source)?;
        self.copy_title(heading, asked)?;
        self.say_text(&page, Role::Contents, source)?;
        self.end_paragraph();
        Ok(())
    }

    // Sets a line for each entry of the record before, as far as there are headings.
    pub fn set_contents(&mut self, asked: usize) -> Result<(), Fault>
        ensures { Plays (telling_to C.playing) self.old (contents_acts (telling_shown self.old.telling) asked (titles (items self.old.manuscript.text.now)) (telling_shown self.old.telling).contents) self.new result }
    {
        let telling = self.telling;
        let manuscript = self.manuscript;
        let mut reader = Reader::new(manuscript.text());
        for entry in telling.old.contents() {
            let Some(heading) = next_heading(&mut reader) else {
                return Ok(());
            };
            self.set_entry(*entry, heading, asked)?;
        }
        Ok(())
    }
}
