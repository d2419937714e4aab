// Taking in the record that a pass has made.
ghost use Rattle.std.specs.Prelude.{◌≡◌, true, Ok};
ghost use Rattle.findings.specs.Keeping.{kept_of};
ghost use Rattle.record.specs.Labels.{distinct};
ghost use Rattle.verdict.specs.Brent.{takes};
ghost use Rattle.session.specs.Desk.{desk_of};
ghost use Rattle.session.specs.Taking.{Taken, CountsOn};
ghost use Rattle.session.specs.Passing.{Accepts};

use super::Passing;
use crate::passed::Passed;
use crate::workspace::Workspace;
use verdict::Progress;

// The numbers count the record that was taken in.
fn counts_on()
    ensures { CountsOn }
{}

// Makes the record in the spare the current one. Both comparisons come before the anchor's record changes.
fn take_record(progress: Progress, workspace: &mut Workspace) -> Progress
    requires { distinct (kept_of workspace.old.spare.findings).lists.labels ≡ true }
    ensures { Taken (kept_of workspace.old.spare.findings).lists progress (desk_of workspace.old) result (desk_of workspace.new) }
{
    let again = workspace.spare.findings.table().same(&workspace.current);
    let back = workspace.spare.findings.table().same(&workspace.anchor);
    let after = progress.advance(again, back);
    workspace.spare.findings.exchange(&mut workspace.current);
    if after.at_anchor() {
        workspace.anchor.copy_from(&workspace.current);
    }
    after
}

impl Passing {
    // Takes in the record that a pass has made in the spare.
    pub(crate) fn take_in(&mut self, words: usize, workspace: &mut Workspace) -> Passed
        requires spare_value { distinct (kept_of workspace.old.spare.findings).lists.labels ≡ true }
        requires progress_value { takes self.old.numbers.progress ≡ true }
        ensures { Accepts (kept_of workspace.old.spare.findings).lists words self.old.numbers (desk_of workspace.old) (Ok result) self.new.numbers (desk_of workspace.new) }
    {
        counts_on();
        self.numbers.progress = take_record(self.numbers.progress, workspace);
        Passed {
            number: self.numbers.progress.passes,
            words,
        }
    }
}
