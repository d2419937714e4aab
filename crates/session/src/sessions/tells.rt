// What a passing session says of its passes.
ghost use Rattle.record.specs.Lists.{Lists};
ghost use Rattle.verdict.specs.Runs.{AlwaysRight};
ghost use Rattle.session.specs.Telling.{VerdictStep};

use super::Passing;
use verdict::Verdict;

impl Passing {
    pub fn verdict(&self) -> Verdict
        ensures step { VerdictStep self.now.numbers.progress result }
        ensures right { AlwaysRight Lists self.now.numbers.progress result }
    {
        self.numbers.verdict()
    }
}
