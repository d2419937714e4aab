// The words of a line.
ghost use Rattle.std.specs.Prelude.{◌≡◌, drop};
ghost use Rattle.reader.specs.Laws.{WordsLaw};
ghost use Rattle.std.specs.Iterator.{item_count};
ghost use Rattle.reader.specs.Kinds.{line_words};
ghost use Rattle.reader.specs.Left.{words_left, NextOfLine};
ghost use Rattle.reader.specs.Reading.{WordAt, NextWord};

use crate::kinds::prose_start;
use crate::place::{Line, LineWord, Word};
use runs::{AnyBut, Byte, run_length};

// Where the first word at or after a place of a line begins and ends, or none.
fn word_bounds(line: &[u8], at: usize) -> Option<(usize, usize)>
    ensures word { WordAt line.now at result }
    ensures law { WordsLaw at (drop at line.now) }
{
    if at >= line.len() {
        return None;
    }
    let offset = at + run_length::<Byte<b' '>>(&line[at..]);
    let length = run_length::<AnyBut<b' '>>(&line[offset..]);
    if length == 0 {
        return None;
    }
    Some((offset, offset + length))
}

// The first word at or after a place of a line, or none. The place is a number beside the line, here and in `Words`: faults tell offsets.
pub fn next_word<'a>(line: &'a [u8], at: usize) -> Option<Word<'a>>
    ensures next { NextWord line.now at result }
    ensures law { WordsLaw at (drop at line.now) }
{
    let (offset, end) = word_bounds(line, at)?;
    let bytes = &line[offset..end];
    Some(Word { offset, bytes })
}

// The words of a line that are left.
#[derive(Clone, Copy)]
pub struct Words<'a> {
    line: Line<'a>,
    at: usize,
}

impl<'a> Words<'a> {
    // The words of a line: those of a title or of text.
    pub fn of_line(line: Line<'a>) -> Words<'a>
        ensures line { result.line ≡ line.entry }
        ensures words { words_left result ≡ line_words line.entry.bytes.now }
    {
        let at = prose_start(line.bytes);
        Words { line, at }
    }
}

impl<'a> Iterator for Words<'a> {
    type Item = LineWord<'a>;

    ghost next_gives = { NextOfLine };

    ghost remaining = { item_count words_left };

    fn next(&mut self) -> Option<LineWord<'a>> {
        let line = self.line;
        let word = next_word(line.bytes, self.at)?;
        self.at = word.offset + word.bytes.len();
        Some(LineWord { line, word })
    }
}
