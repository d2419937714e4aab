// What can be said of a run.
ghost use Rattle.std.specs.Prelude.{◌≡◌};
ghost use Rattle.verdict.specs.Said.{kind_number, said};

// The kinds of what is said, as answers number them.
#[derive(Clone, Copy, PartialEq, Eq, Debug)]
pub enum Outcome {
    Open = 0,
    Settled = 1,
    Oscillates = 2,
}

// What is said after so many passes, and where a period is named, from which pass on it holds.
#[derive(Clone, Copy, PartialEq, Eq, Debug)]
pub enum Verdict {
    Open { passes: u8 },
    // the period is 1
    Settled { passes: u8, since: u8 },
    Oscillates { passes: u8, period: u8, since: u8 },
}

impl Outcome {
    // The number that answers show.
    pub fn number(self) -> u8
        ensures value { result ≡ kind_number self }
    {
        self as u8
    }
}

impl Verdict {
    pub fn outcome(self) -> Outcome
        ensures value { result ≡ (said self).kind }
    {
        match self {
            Verdict::Open { .. } => Outcome::Open,
            Verdict::Settled { .. } => Outcome::Settled,
            Verdict::Oscillates { .. } => Outcome::Oscillates,
        }
    }

    pub fn passes(self) -> u8
        ensures value { result ≡ (said self).passes }
    {
        match self {
            Verdict::Open { passes }
            | Verdict::Settled { passes, .. }
            | Verdict::Oscillates { passes, .. } => passes,
        }
    }

    // The period that is named, 0 while open, as answers show it.
    pub fn period(self) -> u8
        ensures value { result ≡ (said self).period }
    {
        match self {
            Verdict::Open { .. } => 0,
            Verdict::Settled { .. } => 1,
            Verdict::Oscillates { period, .. } => period,
        }
    }

    // The pass that it is named from, 0 while open, as answers show it.
    pub fn since(self) -> u8
        ensures value { result ≡ (said self).since }
    {
        match self {
            Verdict::Open { .. } => 0,
            Verdict::Settled { since, .. } | Verdict::Oscillates { since, .. } => since,
        }
    }
}
