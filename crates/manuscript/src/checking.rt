// The check of a whole manuscript.
ghost use Rattle.std.specs.Prelude.{◌≡◌};
ghost use Rattle.manuscript.specs.Checking.{checked};
ghost use Rattle.manuscript.specs.Rules.{Accepts};

use crate::counts::Counts;
use crate::labels::Labels;
use crate::tally::Tally;
use faults::{Cause, Fault};

// The counts of a manuscript, or its first fault in the order of the tests. It accepts exactly the texts that keep the rules.
#[tactic(auto, using(crate::proofs::Completing::accepts))]
pub fn check(bytes: &[u8]) -> Result<Counts, Fault>
    ensures value { result ≡ checked bytes.now }
    ensures rules { Accepts bytes.now result }
{
    run_tests(bytes)
}

// The tests in their order.
fn run_tests(bytes: &[u8]) -> Result<Counts, Fault>
    ensures { result ≡ checked bytes.now }
{
    if bytes.len() > 60_000 {
        return Err(Fault::plain(Cause::ManuscriptTooLong));
    }
    let mut tally = Tally {
        headings: 0,
        contents: false,
        labels: Labels::new(),
    };
    let lines = tally.scan_text(bytes)?;
    tally.labels.meet_text(bytes)?;
    let labels = tally.labels.count();
    Ok(Counts {
        lines,
        labels,
        headings: tally.headings,
    })
}
