// Why the program ends with status 1, as standard error tells it.
use faults::{Fault, Span};
use std::alloc::{AllocError, AllocFailed, Global};
use std::num::ParseIntError;
use std::{fmt, io};

const USAGE: &str =
    "usage: sitebook check, or settle L W H LETTER LIMIT, or settle F W K R LETTER LIMIT; the book on standard input";

#[derive(Debug, Drop)]
pub enum Failure {
    // A refusal, and the name that it is about, where that is known.
    Refused(Fault, Option<String>),
    // Arguments that name no command.
    Usage,
    Memory(AllocError),
    Stream(io::Error),
}

impl Failure {
    // The same failure, with the name in this text that it is about, where it has one.
    pub(crate) fn naming(self, heap: Global, text: &[u8]) -> Failure {
        let Failure::Refused(fault, None) = self else {
            return self;
        };
        let Some(name) = name_in(text, fault) else {
            return self;
        };
        match String::from_str(heap, name) {
            Ok(name) => Failure::Refused(fault, Some(name)),
            Err(error) => Failure::Memory(error),
        }
    }
}

// The name in a text that a refusal is about.
fn name_in(text: &[u8], fault: Fault) -> Option<&str> {
    let Span { offset, length } = fault.name?;
    let name = text.get(offset..offset.checked_add(length)?)?;
    std::str::from_utf8(name).ok()
}

impl fmt::Display for Failure {
    fn fmt<W: fmt::Write>(&self, f: &mut fmt::Formatter<W>) -> fmt::Result {
        match self {
            Failure::Refused(fault, None) => write!(f, "{fault}"),
            Failure::Refused(fault, Some(name)) => write!(f, "{fault}: {name}"),
            Failure::Usage => f.write_str(USAGE),
            Failure::Memory(error) => write!(f, "{error}"),
            Failure::Stream(error) => write!(f, "{error}"),
        }
    }
}

impl From<Fault> for Failure {
    fn from(fault: Fault) -> Failure {
        Failure::Refused(fault, None)
    }
}

impl From<ParseIntError> for Failure {
    fn from(_error: ParseIntError) -> Failure {
        Failure::Usage
    }
}

impl From<AllocError> for Failure {
    fn from(error: AllocError) -> Failure {
        Failure::Memory(error)
    }
}

impl<T: Drop> From<AllocFailed<T>> for Failure {
    fn from(failed: AllocFailed<T>) -> Failure {
        Failure::Memory(failed.into())
    }
}

impl From<io::Error> for Failure {
    fn from(error: io::Error) -> Failure {
        Failure::Stream(error)
    }
}
