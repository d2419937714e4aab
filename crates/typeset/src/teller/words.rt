// Setting the words of a line.
ghost use Rattle.std.specs.Prelude.{◌≡◌, [], ◌∷◌, Some, None};
ghost use Rattle.compose.specs.Acts.{set_word};
ghost use Rattle.compose.specs.Playing.{Plays};
ghost use Rattle.marks.specs.Values.{value_of};
ghost use Rattle.reader.specs.Kinds.{line_words};
ghost use Rattle.reader.specs.Reading.{line_of, word_of};
ghost use Rattle.typeset.specs.Items.{at_line_lem, word_with, item_word, item_words};
ghost use Rattle.typeset.specs.Manners.{manner_of};
ghost use Rattle.typeset.specs.Script.{part_in, source_in, word_act, word_acts};
ghost use Rattle.typeset.specs.Tellers.{telling_to};
ghost use Rattle.typeset.specs.Texts.{telling_shown};

use super::Teller;
use crate::manner::Manner;
use crate::roles::{at_line, mark_name, marked_role, plain_role, source_in};
use compose::{Compositor, Source};
use faults::Fault;
use manuscript::name_span_of;
use marks::{Marked, parse_word};
use reader::{Line, LineWord, Words};

impl<'t, 'n, 'c, C: Compositor> Teller<'t, 'n, 'c, C> {
    // Sets a word without a mark, as it stands.
    fn set_plain(&mut self, word: LineWord, manner: Manner) -> Result<(), Fault>
        ensures { Plays (telling_to C.playing) self.old (set_word word.entry.word.bytes.now (part_in (manner_of manner) None) (source_in (manner_of manner) (at_line_lem word.entry.line.number)) ∷ []) self.new result }
    {
        let source = source_in(manner, at_line(word.line.number));
        self.say(word.word.bytes, None, plain_role(manner), source)
    }

    // Sets a word with a mark: what it prints is built in the buffer.
    fn set_marked(&mut self, word: LineWord, marked: Marked, manner: Manner) -> Result<(), Fault>
        ensures { Plays (telling_to C.playing) self.old (word_act (telling_shown self.old.telling) (manner_of manner) (word_with (line_of word.entry.line) (word_of word.entry.word) (Some (value_of marked.entry))) ∷ []) self.new result }
    {
        let name = mark_name(marked);
        let shown = self.telling.shown(marked.mark, &name);
        let numerals = &mut *self.numerals;
        let end = numerals.hold(marked.prefix, shown.as_slice(), marked.suffix);
        let source = Source {
            line: word.line.number,
            name: Some(name_span_of(word, marked)),
        };
        self.say(
            word.word.bytes,
            Some(end),
            marked_role(manner, marked, name),
            source_in(manner, source),
        )
    }

    // Sets a word of a title or of text.
    fn set_word(&mut self, title: bool, word: LineWord, manner: Manner) -> Result<(), Fault>
        ensures { Plays (telling_to C.playing) self.old (word_act (telling_shown self.old.telling) (manner_of manner) (item_word title (line_of word.entry.line) (word_of word.entry.word)) ∷ []) self.new result }
    {
        match parse_word(title, word.word.bytes) {
            Ok(Some(marked)) => self.set_marked(word, marked, manner),
            Ok(None) | Err(_) => self.set_plain(word, manner),
        }
    }

    // Sets the words of a line, one after the other.
    pub fn set_words(&mut self, title: bool, line: Line, manner: Manner) -> Result<(), Fault>
        ensures { Plays (telling_to C.playing) self.old (word_acts (telling_shown self.old.telling) (manner_of manner) (item_words title (line_of line.entry) (line_words line.entry.bytes.now))) self.new result }
    {
        for word in Words::of_line(line) {
            self.set_word(title, word, manner)?;
        }
        Ok(())
    }
}
