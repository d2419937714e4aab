// That verdicts are right, for records of any kind.
ghost use Rattle.std.specs.Prelude.{◌≡◌};
ghost use Rattle.verdict.specs.Brent.{verdict_of};
ghost use Rattle.verdict.specs.Runs.{AlwaysRight};
ghost use Rattle.verdict.specs.declared.progress.Progress.{Progress};

use crate::outcome::Verdict;
use crate::progress::Progress;

fn always_right<X>()
    ensures { (p : Progress) → AlwaysRight X p (verdict_of p) }
{}

// The verdict, and that it is true of every run of records of kind X that leads to this progress, however far the run would
// go on.
pub fn right_verdict<X>(progress: Progress) -> Verdict
    ensures value { result ≡ verdict_of progress }
    ensures right { AlwaysRight X progress result }
{
    always_right::<X>();
    progress.verdict()
}
