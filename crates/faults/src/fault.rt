// A refusal, and the part of a manuscript that it is about.
ghost use Rattle.std.specs.Prelude.{◌≡◌};
ghost use Rattle.faults.specs.Faults.{plain, line_at, span_at, in_line_lem, about_name_lem};

use crate::cause::Cause;
use std::error::Error;
use std::fmt;

// A part of a manuscript: where it begins, from 0, and how many bytes it has.
#[derive(Clone, Copy, PartialEq, Eq, Debug)]
pub struct Span {
    pub offset: usize,
    pub length: usize,
}

// `line` counts from 1; `name` is where the label's name stands in the manuscript; `pass` is the pass being made where that refuses a
// word, elsewhere in a session how many were accepted, and 0 outside one.
#[derive(Clone, Copy, PartialEq, Eq, Debug)]
pub struct Fault {
    pub cause: Cause,
    pub line: Option<usize>,
    pub name: Option<Span>,
    pub pass: u8,
}

// The line with a number. Lines count from 1, so 0 is no line, as in answers.
fn line_at(number: usize) -> Option<usize>
    ensures { result ≡ line_at number }
{
    if number == 0 { None } else { Some(number) }
}

// The part of a text with these numbers: 0 and 0 is none, as in answers.
fn span_at(span: Span) -> Option<Span>
    ensures { result ≡ span_at span }
{
    if span.offset == 0 && span.length == 0 {
        None
    } else {
        Some(span)
    }
}

impl Fault {
    // A refusal that no line is to blame for.
    pub fn plain(cause: Cause) -> Fault
        ensures { result ≡ plain cause }
    {
        Fault {
            cause,
            line: None,
            name: None,
            pass: 0,
        }
    }

    // A refusal of a line.
    pub fn in_line(cause: Cause, line: usize) -> Fault
        ensures { result ≡ in_line_lem cause line }
    {
        Fault {
            line: line_at(line),
            ..Fault::plain(cause)
        }
    }

    // A refusal of a line for a name in it.
    pub fn about_name(cause: Cause, line: usize, name: Span) -> Fault
        ensures { result ≡ about_name_lem cause line name }
    {
        Fault {
            name: span_at(name),
            ..Fault::in_line(cause, line)
        }
    }
}

impl fmt::Display for Fault {
    fn fmt<W: fmt::Write>(&self, f: &mut fmt::Formatter<W>) -> fmt::Result {
        let number = self.cause.number();
        let cause = self.cause;
        match self.line {
            None => write!(f, "refusal {number}: {cause}"),
            Some(line) => write!(f, "refusal {number} in line {line}: {cause}"),
        }
    }
}

impl Error for Fault {}
