// How a heading's number is made.
ghost use Rattle.std.specs.Prelude.{◌≡◌};
ghost use Rattle.std.proofs.Common.{rules};
ghost use Rattle.numerals.specs.Same.{number_same};
ghost use Rattle.numerals.specs.Heading.{Numbers};
ghost use Rattle.numerals.specs.Sound.{number_ok};

use super::HeadingNumber;
use crate::counters::Counters;
use crate::exact::Exact;

// Whether the counters are as the level asks: that of the level is at least 1, those after it are 0, and none is over 128.
#[tactic(auto, using(std::proofs::lemmas::Bool::Decides::nat_tests), unfolding(crate::specs::Sound::number_ok))]
fn number_ok(level: u8, counters: Counters) -> bool
    ensures { result ≡ number_ok level counters }
{
    let Counters {
        first,
        second,
        third,
    } = counters;
    if first > 128 || second > 128 || third > 128 {
        return false;
    }
    match level {
        0 => first == 0 && second == 0 && third == 0,
        1 => first >= 1 && second == 0 && third == 0,
        2 => second >= 1 && third == 0,
        3 => third >= 1,
        _ => false,
    }
}

impl HeadingNumber {
    // The number with this level and these counters, if they go together.
    pub fn new(level: u8, counters: Counters) -> Option<HeadingNumber>
        ensures { Numbers level counters result }
    {
        if number_ok(level, counters) {
            Some(HeadingNumber { level, counters })
        } else {
            None
        }
    }

    // The number before any heading.
    #[tactic(auto, unfolding(crate::specs::Sound::number_ok))]
    pub fn before_any() -> HeadingNumber
        ensures { (result.level ≡ 0) × (result.counters ≡ record { first = 0; second = 0; third = 0 }) }
    {
        HeadingNumber {
            level: 0,
            counters: Counters {
                first: 0,
                second: 0,
                third: 0,
            },
        }
    }
}

impl Exact for HeadingNumber {
    ghost exact = { λ x y e. number_same x y (Prim.search rules) (Prim.search rules) };

    ghost whole = { Prim.search rules };
}
