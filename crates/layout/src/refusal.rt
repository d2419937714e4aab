// Why a layout does not take a word.
ghost use Rattle.std.specs.Prelude.{◌≡◌};
ghost use Rattle.layout.specs.Refusals.{refusal_number, cause_of};

use faults::Cause;
use std::error::Error;
use std::fmt;

// As answers number them.
#[derive(Clone, Copy, PartialEq, Eq, Debug)]
pub enum Refusal {
    WordTooWide = 14,
    PagesUsedUp = 15,
}

impl Refusal {
    // The number that stands for it in answers.
    pub fn number(self) -> u8
        ensures { result ≡ refusal_number self }
    {
        self as u8
    }
}

impl fmt::Display for Refusal {
    fn fmt<W: fmt::Write>(&self, f: &mut fmt::Formatter<W>) -> fmt::Result {
        f.write_str(match self {
            Refusal::WordTooWide => "a word is too wide",
            Refusal::PagesUsedUp => "the pages are used up",
        })
    }
}

impl Error for Refusal {}

// The cause of a fault that the refusal makes.
impl From<Refusal> for Cause {
    ghost from_gives = { λ refusal cause. cause ≡ cause_of refusal };

    fn from(refusal: Refusal) -> Cause {
        match refusal {
            Refusal::WordTooWide => Cause::WordTooWide,
            Refusal::PagesUsedUp => Cause::PagesUsedUp,
        }
    }
}
