// The lines of a text, one after the other. No `reader::Reader`: that one takes a last line without its newline too.
ghost use Rattle.std.specs.Prelude.{◌≡◌, ◌+◌, ◌^◌, ◌≤◌, length};

use runs::{AnyBut, run_length};

// A line without its newline, and its number, from 1.
#[derive(Clone, Copy)]
pub struct Line<'a> {
    pub number: usize,
    pub digits: &'a [u8],
}

// What is left of a text, and the number of its first line.
#[derive(Clone, Copy)]
pub struct Lines<'a> {
    pub number: usize,
    pub rest: &'a [u8],
    ghost counted: { number + length rest.now ≤ 2 ^ 63 },
}

impl<'a> Lines<'a> {
    pub fn of(text: &'a [u8]) -> Lines<'a>
        ensures number { result.number ≡ 1 }
        ensures rest { result.rest.now ≡ text.now }
    {
        Lines {
            number: 1,
            rest: text,
        }
    }
}

// The next line; none where what is left has no newline.
impl<'a> Iterator for Lines<'a> {
    ghost use Rattle.recordlines.specs.Lines.{NextLine};
    ghost use Rattle.std.specs.Iterator.{at_most};

    type Item = Line<'a>;

    ghost next_gives = { NextLine };

    ghost remaining = { λ s. at_most (length s.rest.now) };

    fn next(&mut self) -> Option<Line<'a>> {
        let Lines { number, rest } = *self;
        let end = run_length::<AnyBut<b'\n'>>(rest);
        if end == rest.len() {
            return None;
        }
        *self = Lines {
            number: number + 1,
            rest: &rest[end + 1..],
        };
        Some(Line {
            number,
            digits: &rest[..end],
        })
    }
}
