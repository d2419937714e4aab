// What the words of a pass are told from, and where their texts are built.
ghost use Rattle.std.specs.Prelude.{◌≡◌, ◌+◌, ◌≤◌, ◌++◌, length, replicate, take};

use buffers::write;
use numerals::NumeralStyle;
use record::Table;

mod shows;

// The style of page numerals, and the record of the pass before.
#[derive(Clone, Copy)]
pub struct Telling<'a> {
    pub style: NumeralStyle,
    pub old: &'a Table,
}

// Room for the longest text of a marked word: 60 bytes around the mark, and a numeral of 12. An array and no `ArrayVec`:
// `text_of` hands back a part of the manuscript or of this buffer, which is the form asked for, and the end of what is built tells which.
#[derive(Clone, Copy)]
pub struct NumeralBuffer {
    pub bytes: [u8; 72],
    ghost long: { length bytes ≡ 72 },
}

impl NumeralBuffer {
    pub fn new() -> NumeralBuffer
        ensures { result.bytes ≡ replicate 72 0 }
    {
        NumeralBuffer { bytes: [0; 72] }
    }

    // Builds a text of three parts at the front, and answers how many bytes it has.
    pub(crate) fn hold(&mut self, before: &[u8], middle: &[u8], after: &[u8]) -> usize
        requires { length before.now + length middle.now + length after.now ≤ 72 }
        ensures text { take result self.new.bytes ≡ before.now ++ (middle.now ++ after.now) }
        ensures within { result ≤ 72 }
    {
        let end = write(&mut self.bytes, 0, before);
        let end = write(&mut self.bytes, end, middle);
        write(&mut self.bytes, end, after)
    }
}
