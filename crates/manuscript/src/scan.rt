// The tests of a manuscript in their order, line by line and word by word. One function for each definition of specs/Scanning.antt.
ghost use Rattle.std.specs.Prelude.{◌≡◌, ◌+◌, ◌^◌, ◌<◌, length, IfOk};
ghost use Rattle.marks.specs.Values.{value_of};
ghost use Rattle.reader.specs.Kinds.{kind, level, line_words};
ghost use Rattle.reader.specs.Lines.{lines};
ghost use Rattle.reader.specs.Reading.{line_of, word_of};
ghost use Rattle.reader.specs.declared.kinds.Kind.TheVariants.{Heading, Directive};
ghost use Rattle.manuscript.specs.Scanning.{allowed, titled, defined, noted, entered, scan_words, scan_line, scan_lines};
ghost use Rattle.manuscript.specs.Standing.{name_span, is_title};
ghost use Rattle.manuscript.specs.Values.{seen, after};
ghost use Rattle.marks.specs.Parts.{parts};

use crate::tally::Tally;
use faults::{Cause, Fault, Span};
use marks::{Mark, Marked, parse_word};
use reader::{
    Kind, Line, LineWord, Reader, Word, Words, kind_of, level_of, next_word, prose_start,
};
use runs::{Class, all_of};

// A byte that a line may have.
pub struct Allowed;

impl Class for Allowed {
    ghost test = { allowed };

    fn has(b: u8) -> bool {
        (32..=126).contains(&b)
    }
}

// Where the name of a marked word stands in the text.
pub fn span_of(line: Line, word: Word, marked: Marked) -> Span
    requires { line.offset + word.offset + length marked.prefix.now + 3 < 2 ^ 64 }
    ensures { result ≡ name_span (line_of line.entry) (word_of word.entry) (value_of marked.entry) }
{
    Span {
        offset: line.offset + word.offset + marked.prefix.len() + 3,
        length: marked.name.len(),
    }
}

// The same for a word in its line; the call above was there before lines had their words, and stays.
pub fn name_span_of(word: LineWord, marked: Marked) -> Span
    ensures { result ≡ name_span (line_of word.entry.line) (word_of word.entry.word) (value_of marked.entry) }
{
    span_of(word.line, word.word, marked)
}

// Whether a line that begins with '#' is a heading: one to three of them, a space, and a title.
fn is_titled(line: &[u8]) -> bool
    ensures { result ≡ titled line.now }
{
    let level = level_of(line);
    level <= 3 && line.get(level) == Some(&b' ') && next_word(line, prose_start(line)).is_some()
}

// Whether the words of a line are a title's.
pub fn holds_title(line: &[u8]) -> bool
    ensures { result ≡ is_title line.now }
{
    kind_of(line) == Kind::Heading
}

impl<'a> Tally<'a> {
    // A label more, unless its name is taken or the table is full.
    fn define(&mut self, word: LineWord<'a>, label: Marked<'a>) -> Result<(), Fault>
        ensures { after result self.new ≡ defined word.entry.line.number (name_span (line_of word.entry.line) (word_of word.entry.word) (value_of label.entry)) label.entry.name.now (seen self.old) }
    {
        let line = word.line.number;
        let span = name_span_of(word, label);
        if self.labels.contains(label.name) {
            return Err(Fault::about_name(Cause::LabelRepeated, line, span));
        }
        self.labels
            .push(label.name)
            .map_err(|_| Fault::about_name(Cause::TooManyLabels, line, span))
    }

    // A word more: only a label leaves something in the tally.
    fn note_word(&mut self, word: LineWord<'a>) -> Result<(), Fault>
        ensures { after result self.new ≡ noted (line_of word.entry.line) (word_of word.entry.word) (parts (is_title word.entry.line.bytes.now) word.entry.word.bytes.now) (seen self.old) }
    {
        let LineWord { line, word: part } = word;
        match parse_word(holds_title(line.bytes), part.bytes) {
            Err(cause) => Err(Fault::in_line(cause, line.number)),
            Ok(None) => Ok(()),
            Ok(Some(marked)) => match marked.mark {
                Mark::Label => self.define(word, marked),
                Mark::Page | Mark::Number => Ok(()),
            },
        }
    }

    // The words of a line, up to the first that is refused.
    fn note_words(&mut self, line: Line<'a>) -> Result<(), Fault>
        ensures { after result self.new ≡ scan_words (is_title line.entry.bytes.now) (line_of line.entry) (line_words line.entry.bytes.now) (seen self.old) }
    {
        for word in Words::of_line(line) {
            self.note_word(word)?;
        }
        Ok(())
    }

    fn enter_heading(&mut self, line: Line<'a>) -> Result<(), Fault>
        ensures { after result self.new ≡ entered Heading (line_of line.entry) (seen self.old) }
    {
        if !is_titled(line.bytes) {
            return Err(Fault::in_line(Cause::HeadingMalformed, line.number));
        }
        if self.headings >= 128 {
            return Err(Fault::in_line(Cause::TooManyHeadings, line.number));
        }
        // Counted over all lines, of which this is one: no loop here has the count.
        self.headings += 1;
        Ok(())
    }

    fn enter_directive(&mut self, line: Line<'a>) -> Result<(), Fault>
        ensures { after result self.new ≡ entered Directive (line_of line.entry) (seen self.old) }
    {
        if line.bytes == b"!contents".as_slice() {
            if self.contents {
                return Err(Fault::in_line(Cause::SecondContents, line.number));
            }
            self.contents = true;
            return Ok(());
        }
        if line.bytes == b"!page".as_slice() {
            return Ok(());
        }
        Err(Fault::in_line(Cause::DirectiveUnknown, line.number))
    }

    // What the kind of a line asks of it before its words.
    fn enter_line(&mut self, line: Line<'a>) -> Result<(), Fault>
        ensures { after result self.new ≡ entered (kind line.entry.bytes.now) (line_of line.entry) (seen self.old) }
    {
        match kind_of(line.bytes) {
            Kind::Heading => self.enter_heading(line),
            Kind::Directive => self.enter_directive(line),
            Kind::Remark | Kind::Text => Ok(()),
        }
    }

    fn note_line(&mut self, line: Line<'a>) -> Result<(), Fault>
        ensures { after result self.new ≡ scan_line (line_of line.entry) (seen self.old) }
    {
        if !all_of::<Allowed>(line.bytes) {
            return Err(Fault::in_line(Cause::ByteNotAllowed, line.number));
        }
        self.enter_line(line)?;
        self.note_words(line)
    }

    // All lines of a text: how many they are, or the first refusal.
    pub fn scan_text(&mut self, text: &'a [u8]) -> Result<usize, Fault>
        ensures value { after result self.new ≡ scan_lines (lines text.now) (seen self.old) }
        ensures lines { IfOk result (λ n. n ≡ length (lines text.now)) }
    {
        // the number of the last line is the count of all; `for` takes the reader, which had it besides
        let mut count = 0;
        for line in Reader::new(text) {
            self.note_line(line)?;
            count = line.number;
        }
        Ok(count)
    }
}
