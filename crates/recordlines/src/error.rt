// Why bytes do not load: a bad line, or want of memory.
ghost use Rattle.std.specs.Prelude.{◌≡◌};
ghost use Rattle.recordlines.specs.declared.error.LoadError.TheVariants.{Refused, NoMemory};

use faults::Fault;
use std::alloc::AllocError;
use std::error::Error;
use std::fmt;

#[derive(Clone, Copy, PartialEq, Eq, Debug)]
pub enum LoadError {
    Refused(Fault),
    NoMemory,
}

impl From<Fault> for LoadError {
    ghost from_gives = { λ fault error. error ≡ Refused fault };

    fn from(fault: Fault) -> Self {
        Self::Refused(fault)
    }
}

impl From<AllocError> for LoadError {
    ghost from_gives = { λ _ error. error ≡ NoMemory };

    fn from(_error: AllocError) -> Self {
        Self::NoMemory
    }
}

impl fmt::Display for LoadError {
    fn fmt<W: fmt::Write>(&self, f: &mut fmt::Formatter<W>) -> fmt::Result {
        match self {
            LoadError::Refused(fault) => write!(f, "{fault}"),
            LoadError::NoMemory => f.write_str("there is no memory for a record"),
        }
    }
}

impl Error for LoadError {}
