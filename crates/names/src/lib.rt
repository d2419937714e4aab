// The rule of a NAME, once: 1 to 16 letters, digits or hyphens.
#![tactic(auto)]

ghost use Rattle.std.specs.Prelude.{◌≡◌};
ghost use Rattle.names.specs.Name.{name_byte, naming};

use runs::{Class, all_of};
use std::error::Error;
use std::fmt;

// Why bytes are no name.
#[derive(Clone, Copy, PartialEq, Eq, Debug)]
pub enum NameError {
    WrongLength,
    WrongCharacter,
}

impl fmt::Display for NameError {
    fn fmt<W: fmt::Write>(&self, f: &mut fmt::Formatter<W>) -> fmt::Result {
        f.write_str(match self {
            NameError::WrongLength => "a name has 1 to 16 characters",
            NameError::WrongCharacter => "a name has only letters, digits and hyphens",
        })
    }
}

impl Error for NameError {}

// A letter, a digit or a hyphen.
struct NameByte;

impl Class for NameByte {
    ghost test = { name_byte };

    fn has(b: u8) -> bool {
        b.is_ascii_alphabetic() || b.is_ascii_digit() || b == b'-'
    }
}

// Bytes that are a name, or else what is wrong with them: the length goes first.
pub fn named(bytes: &[u8]) -> Result<(), NameError>
    ensures { result ≡ naming bytes.now }
{
    if bytes.is_empty() {
        return Err(NameError::WrongLength);
    }
    if bytes.len() > 16 {
        return Err(NameError::WrongLength);
    }
    if !all_of::<NameByte>(bytes) {
        return Err(NameError::WrongCharacter);
    }
    Ok(())
}
