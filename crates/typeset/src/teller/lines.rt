// The walk of a manuscript: line by line, a compositor is told the acts of each item. A line and its number stay two parameters: the
// line is read, and the number goes on from the line before.
ghost use Rattle.std.specs.Prelude.{◌≡◌, true, false, IfOk, if◌then◌else◌};
ghost use Rattle.compose.specs.Acts.{number_of};
ghost use Rattle.compose.specs.Playing.{Plays};
ghost use Rattle.manuscript.specs.Rules.{line_kept, Kept};
ghost use Rattle.manuscript.specs.Standing.{is_title};
ghost use Rattle.record.specs.Lists.{lists_of};
ghost use Rattle.reader.specs.Kinds.{line_words};
ghost use Rattle.reader.specs.Reading.{line_of};
ghost use Rattle.reader.specs.declared.kinds.Kind.TheVariants.{Directive};
ghost use Rattle.typeset.specs.Items.{item_words, item_of, line_item, items, titles};
ghost use Rattle.typeset.specs.Numbering.{Room, number_after_lem};
ghost use Rattle.typeset.specs.Script.{text_acts, item_acts, script};
ghost use Rattle.typeset.specs.Tellers.{telling_to};
ghost use Rattle.typeset.specs.Texts.{telling_shown};
ghost use Rattle.typeset.specs.Walking.{answered};

use super::Teller;
use crate::manner::Manner;
use crate::numbering::number_after;
use compose::Compositor;
use faults::Fault;
use manuscript::Manuscript;
use numerals::HeadingNumber;
use reader::{Kind, Line, Reader, kind_of, next_word, prose_start};

// The text of a bound manuscript, which keeps the rules.
fn kept_text<'a>(manuscript: Manuscript<'a>) -> &'a [u8]
    ensures value { result.now ≡ manuscript.entry.text.now }
    ensures kept { Kept result.now }
{
    manuscript.text()
}

impl<'t, 'n, 'c, C: Compositor> Teller<'t, 'n, 'c, C> {
    // Sets a line of text; one without a word ends the paragraph.
    fn set_text(&mut self, line: Line, number: HeadingNumber) -> Result<(), Fault>
        ensures { Plays (telling_to C.playing) self.old (text_acts (telling_shown self.old.telling) (number_of number) (item_words false (line_of line.entry) (line_words line.entry.bytes.now))) self.new result }
    {
        if next_word(line.bytes, prose_start(line.bytes)).is_none() {
            self.end_paragraph();
            return Ok(());
        }
        self.set_words(false, line, Manner::InPlace(number))
    }

    // Does what a directive asks. The check refuses a directive that is neither, and the walk passes it over, so each compares for itself.
    fn obey(&mut self, line: Line, number: HeadingNumber) -> Result<(), Fault>
        ensures { Plays (telling_to C.playing) self.old (item_acts (telling_shown self.old.telling) (titles (items self.old.manuscript.text.now)) (number_of number) (item_of Directive (line_of line.entry))) self.new result }
    {
        if line.bytes == b"!contents".as_slice() {
            self.end_paragraph();
            return self.set_contents(line.number);
        }
        if line.bytes == b"!page".as_slice() {
            self.end_paragraph();
            self.end_page();
        }
        Ok(())
    }

    // Tells the acts of a line, under its number.
    fn ask_line(&mut self, line: Line, number: HeadingNumber) -> Result<(), Fault>
        ensures { Plays (telling_to C.playing) self.old (item_acts (telling_shown self.old.telling) (titles (items self.old.manuscript.text.now)) (number_of number) (line_item (line_of line.entry))) self.new result }
    {
        match kind_of(line.bytes) {
            Kind::Heading => self.set_heading(line, number),
            Kind::Directive => self.obey(line, number),
            Kind::Remark => Ok(()),
            Kind::Text => self.set_text(line, number),
        }
    }

    // Tells the acts of a line, and answers the number after it. A heading counts as soon as its line begins.
    fn walk_line(&mut self, line: Line, number: HeadingNumber) -> Result<HeadingNumber, Fault>
        requires line_value { line_kept (line_of line) ≡ true }
        requires room { Room number.counters (if is_title line.bytes.now then 1 else 0) }
        ensures number { IfOk result (λ k. number_of k ≡ number_after_lem (number_of number) (line_item (line_of line.entry))) }
        ensures plays { Plays (telling_to C.playing) self.old (item_acts (telling_shown self.old.telling) (titles (items self.old.manuscript.text.now)) (number_after_lem (number_of number) (line_item (line_of line.entry))) (line_item (line_of line.entry))) self.new (answered result) }
    {
        let own = number_after(line, number);
        self.ask_line(line, own)?;
        Ok(own)
    }

    // Tells the acts of every line.
    pub fn walk_lines(&mut self) -> Result<(), Fault>
        ensures { Plays (telling_to C.playing) self.old (script self.old.telling.style (lists_of self.old.telling.old.now) (items self.old.manuscript.text.now)) self.new result }
    {
        let text = kept_text(self.manuscript);
        let mut number = HeadingNumber::before_any();
        for line in Reader::new(text) {
            number = self.walk_line(line, number)?;
        }
        Ok(())
    }
}
