// What a session refuses.
ghost use Rattle.std.specs.Prelude.{◌≡◌, ◌<◌, true, OnOk};
ghost use Rattle.verdict.specs.Brent.{takes};
ghost use Rattle.session.specs.Faulting.{at_pass_lem};
ghost use Rattle.session.specs.Passing.{barred};

use super::Numbers;
use faults::{Cause, Fault};
use verdict::Outcome;

impl Numbers {
    // A fault of no line, with the number of passes so far.
    pub(crate) fn fault(self, cause: Cause) -> Fault
        ensures { result ≡ at_pass_lem cause self.progress.passes }
    {
        Fault {
            pass: self.progress.passes,
            ..Fault::plain(cause)
        }
    }

    // Whether a pass is begun: nothing but open is said, and not all allowed passes are made.
    pub(crate) fn may_pass(self) -> Result<(), Fault>
        ensures value { result ≡ barred self }
        ensures room { OnOk result ((takes self.progress ≡ true) × (self.progress.passes < 255)) }
    {
        match self.progress.outcome {
            Outcome::Open if self.progress.passes < self.limit => Ok(()),
            Outcome::Open => Err(self.fault(Cause::PassLimitReached)),
            Outcome::Settled | Outcome::Oscillates => Err(self.fault(Cause::VerdictReached)),
        }
    }
}
