// Why an entry is not taken.
use std::error::Error;
use std::fmt;

#[derive(Clone, Copy, PartialEq, Eq, Debug)]
pub enum EntryError {
    Absent,
    NoPage,
    NoHeading,
    Repeated,
    Full,
}

impl fmt::Display for EntryError {
    fn fmt<W: fmt::Write>(&self, f: &mut fmt::Formatter<W>) -> fmt::Result {
        f.write_str(match self {
            EntryError::Absent => "there is no such entry",
            EntryError::NoPage => "a page is 1 to 999",
            EntryError::NoHeading => "the number is no heading's",
            EntryError::Repeated => "a label has this name",
            EntryError::Full => "there are 128 entries",
        })
    }
}

impl Error for EntryError {}
