// Brent's rule on plain numbers. Every call takes any numbers: differences stop at 0, and a progress that has its verdict, or
// has counted 255 passes, stays as it is.
ghost use Rattle.std.specs.Prelude.{◌≡◌};
ghost use Rattle.verdict.specs.Brent.{start, takes, advanced, at_anchor_lem, verdict_of, said_of};
ghost use Rattle.verdict.specs.Said.{said};

use crate::outcome::{Outcome, Verdict};

// The accepted passes, the pass whose record is the anchor, the distance at which the anchor moves, and what is said.
#[derive(Clone, Copy, PartialEq, Eq, Debug)]
pub struct Progress {
    pub passes: u8,
    pub anchor: u8,
    pub power: u16,
    pub outcome: Outcome,
}

impl Progress {
    pub fn new() -> Progress
        ensures value { result ≡ start }
    {
        Progress {
            passes: 0,
            anchor: 0,
            power: 1,
            outcome: Outcome::Open,
        }
    }

    // Whether another pass is taken in: nothing but open was said, and the count has room.
    pub fn takes_pass(self) -> bool
        ensures value { result ≡ takes self }
    {
        self.outcome == Outcome::Open && self.passes < 255
    }

    // Takes in an accepted pass, told whether its record is that of the pass before and whether it is the anchor's.
    pub fn advance(self, same_as_before: bool, same_as_anchor: bool) -> Progress
        ensures value { result ≡ advanced same_as_before same_as_anchor self }
    {
        if !self.takes_pass() {
            return self;
        }
        let passes = self.passes + 1;
        if same_as_before {
            return Progress {
                passes,
                outcome: Outcome::Settled,
                ..self
            };
        }
        if same_as_anchor {
            return Progress {
                passes,
                outcome: Outcome::Oscillates,
                ..self
            };
        }
        // a power that equals a difference of passes is below 256, so it can be doubled
        if u16::from(passes.saturating_sub(self.anchor)) == self.power {
            return Progress {
                passes,
                anchor: passes,
                power: self.power * 2,
                ..self
            };
        }
        Progress { passes, ..self }
    }

    // Whether the anchor's record is the current one. After a pass: whether the anchor has just moved to it.
    pub fn at_anchor(self) -> bool
        ensures value { result ≡ at_anchor_lem self }
    {
        self.passes == self.anchor
    }

    pub fn verdict(self) -> Verdict
        ensures value { result ≡ verdict_of self }
        ensures numbers { said result ≡ said_of self }
    {
        let passes = self.passes;
        match self.outcome {
            Outcome::Open => Verdict::Open { passes },
            Outcome::Settled => Verdict::Settled {
                passes,
                since: passes.saturating_sub(1),
            },
            Outcome::Oscillates => Verdict::Oscillates {
                passes,
                period: passes.saturating_sub(self.anchor),
                since: self.anchor,
            },
        }
    }
}
