// Why a request has no answer of its own.
use faults::Fault;
use hex::FromHexError;
use numerals::UnknownStyle;
use recordlines::LoadError;
use std::alloc::{AllocError, AllocFailed};
use std::num::ParseIntError;

#[derive(Clone, Copy, Debug)]
pub enum Unanswered {
    // It is no request that is known.
    Unreadable,
    // What it asks for is refused.
    Refused(Fault),
    // There was no memory for the record that it loads.
    NoMemoryToLoad,
    // There was no memory for the answer.
    Memory(AllocError),
}

impl From<AllocError> for Unanswered {
    fn from(error: AllocError) -> Unanswered {
        Unanswered::Memory(error)
    }
}

impl<T: Drop> From<AllocFailed<T>> for Unanswered {
    fn from(failed: AllocFailed<T>) -> Unanswered {
        Unanswered::Memory(failed.into())
    }
}

impl From<Fault> for Unanswered {
    fn from(fault: Fault) -> Unanswered {
        Unanswered::Refused(fault)
    }
}

impl From<LoadError> for Unanswered {
    fn from(error: LoadError) -> Unanswered {
        match error {
            LoadError::Refused(fault) => Unanswered::Refused(fault),
            LoadError::NoMemory => Unanswered::NoMemoryToLoad,
        }
    }
}

impl From<ParseIntError> for Unanswered {
    fn from(_error: ParseIntError) -> Unanswered {
        Unanswered::Unreadable
    }
}

impl From<UnknownStyle> for Unanswered {
    fn from(_style: UnknownStyle) -> Unanswered {
        Unanswered::Unreadable
    }
}

impl From<FromHexError> for Unanswered {
    fn from(error: FromHexError) -> Unanswered {
        match error {
            FromHexError::OutOfMemory => Unanswered::Memory(AllocError),
            _ => Unanswered::Unreadable,
        }
    }
}
