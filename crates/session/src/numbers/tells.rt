// What is said of the passes so far.
ghost use Rattle.record.specs.Lists.{Lists};
ghost use Rattle.verdict.specs.Runs.{AlwaysRight};
ghost use Rattle.session.specs.Telling.{VerdictStep};

use super::Numbers;
use verdict::Verdict;

impl Numbers {
    // The verdict, which is true of every run of records that leads to these numbers.
    pub(crate) fn verdict(self) -> Verdict
        ensures step { VerdictStep self.progress result }
        ensures right { AlwaysRight Lists self.progress result }
    {
        self.progress.verdict()
    }
}
