// The references of a manuscript, each of which wants its label.
ghost use Rattle.std.specs.Prelude.{◌≡◌};
ghost use Rattle.marks.specs.Parts.{parts};
ghost use Rattle.reader.specs.Reading.{line_of, word_of};
ghost use Rattle.manuscript.specs.Standing.{marking, line_marks, marks, is_title, dangling};
ghost use Rattle.manuscript.specs.Values.{held, faulted};

use crate::labels::Labels;
use crate::scan::{holds_title, name_span_of};
use faults::{Cause, Fault};
use marks::{Mark, parse_word};
use reader::{Line, LineWord, Reader, Words};

impl Labels<'_> {
    // A reference in a word wants its label; a word that is no reference wants none.
    fn meet_word(&self, word: LineWord) -> Result<(), Fault>
        ensures { faulted result ≡ dangling (held self.now) (marking (line_of word.entry.line) (word_of word.entry.word) (parts (is_title word.entry.line.bytes.now) word.entry.word.bytes.now)) }
    {
        let LineWord { line, word: part } = word;
        let Ok(Some(marked)) = parse_word(holds_title(line.bytes), part.bytes) else {
            return Ok(());
        };
        match marked.mark {
            Mark::Label => Ok(()),
            Mark::Page | Mark::Number => {
                if self.contains(marked.name) {
                    return Ok(());
                }
                let name = name_span_of(word, marked);
                Err(Fault::about_name(Cause::ReferenceWithoutLabel, line.number, name))
            }
        }
    }

    #[tactic(auto, using(crate::proofs::Danglings::dangling_append))]
    fn meet_line(&self, line: Line) -> Result<(), Fault>
        ensures { faulted result ≡ dangling (held self.now) (line_marks (line_of line.entry)) }
    {
        for word in Words::of_line(line) {
            self.meet_word(word)?;
        }
        Ok(())
    }

    // Every reference of a text has its label, or the first that has none is refused.
    #[tactic(auto, using(crate::proofs::Danglings::dangling_append))]
    pub fn meet_text(&self, text: &[u8]) -> Result<(), Fault>
        ensures { faulted result ≡ dangling (held self.now) (marks text.now) }
    {
        for line in Reader::new(text) {
            self.meet_line(line)?;
        }
        Ok(())
    }
}
