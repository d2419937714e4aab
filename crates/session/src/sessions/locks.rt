// Locking a settled session.
ghost use Rattle.session.specs.Locking.{LockStep};

use super::{Locked, Passing};
use faults::{Cause, Fault};
use verdict::Outcome;

impl Passing {
    // A settled session is locked; any other is handed back as it was, with a fault.
    pub fn lock(self) -> Result<Locked, (Fault, Passing)>
        ensures { LockStep self result }
    {
        match self.numbers.progress.outcome {
            Outcome::Settled => Ok(Locked {
                numbers: self.numbers,
            }),
            Outcome::Open | Outcome::Oscillates => {
                Err((self.numbers.fault(Cause::NotSettled), self))
            }
        }
    }
}
