// Setting a heading.
ghost use Rattle.std.specs.Prelude.{◌∷◌};
ghost use Rattle.compose.specs.Acts.{number_of, end_of_paragraph};
ghost use Rattle.compose.specs.Playing.{Plays};
ghost use Rattle.reader.specs.Reading.{line_of};
ghost use Rattle.typeset.specs.Items.{title_words};
ghost use Rattle.typeset.specs.Script.{title_acts};
ghost use Rattle.typeset.specs.Tellers.{telling_to};
ghost use Rattle.typeset.specs.Texts.{telling_shown};

use super::Teller;
use crate::manner::Manner;
use crate::roles::at_line;
use compose::{Compositor, Role};
use faults::Fault;
use numerals::HeadingNumber;
use reader::Line;

impl<'t, 'n, 'c, C: Compositor> Teller<'t, 'n, 'c, C> {
    // Sets a heading's number and title, and ends the paragraph.
    fn set_title(&mut self, line: Line, number: HeadingNumber) -> Result<(), Fault>
        ensures { Plays (telling_to C.playing) self.old (title_acts (telling_shown self.old.telling) (number_of number) line.entry.number (title_words (line_of line.entry))) self.new result }
    {
        self.say_text(&number.text(), Role::Heading(number), at_line(line.number))?;
        self.set_words(true, line, Manner::InPlace(number))?;
        self.end_paragraph();
        Ok(())
    }

    // Sets a heading as a paragraph of its own.
    pub fn set_heading(&mut self, line: Line, number: HeadingNumber) -> Result<(), Fault>
        ensures { Plays (telling_to C.playing) self.old (end_of_paragraph ∷ title_acts (telling_shown self.old.telling) (number_of number) line.entry.number (title_words (line_of line.entry))) self.new result }
    {
        self.end_paragraph();
        self.set_title(line, number)
    }
}
