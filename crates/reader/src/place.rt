// What the reader hands out, and the plain record of where it stands.
ghost use Rattle.std.specs.Prelude.{◌+◌, ◌^◌, ◌<◌, ◌≤◌, length};

// The offset of the next line, and how many lines were read. A number beside the text and no slice of what is left: faults tell offsets.
#[derive(Clone, Copy, PartialEq, Eq, Debug)]
pub struct Place {
    pub at: usize,
    pub lines: usize,
}

// A line without its newline: its number, from 1, the offset of its first byte, and its bytes.
#[derive(Clone, Copy)]
pub struct Line<'a> {
    pub number: usize,
    pub offset: usize,
    pub bytes: &'a [u8],
    ghost ends: { offset + length bytes.now < 2 ^ 63 },
}

// A word: the offset of its first byte in its line, and its bytes.
#[derive(Clone, Copy)]
pub struct Word<'a> {
    pub offset: usize,
    pub bytes: &'a [u8],
}

// A word and the line in which it stands.
#[derive(Clone, Copy)]
pub struct LineWord<'a> {
    pub line: Line<'a>,
    pub word: Word<'a>,
    ghost inside: { word.offset + length word.bytes.now ≤ length line.bytes.now },
}
