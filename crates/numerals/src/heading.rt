// A heading's number: its level, and counters that go with it.
// Level 0 stands for no absence: it is the number of what comes before any heading, and is printed and saved as such.
ghost use Rattle.std.specs.Prelude.{◌≡◌, true};
ghost use Rattle.numerals.specs.Sound.{number_ok};

use crate::counters::Counters;

mod makes;

#[derive(Clone, Copy, Debug, PartialEq, Eq)]
pub struct HeadingNumber {
    pub level: u8,
    pub counters: Counters,
    ghost sound: { number_ok level counters ≡ true },
}
