// What a locked session still does.
ghost use Rattle.record.specs.Lists.{Lists};
ghost use Rattle.recordlines.specs.Save.{LoadsAgain};
ghost use Rattle.verdict.specs.Runs.{AlwaysRight};
ghost use Rattle.session.specs.Desk.{desk_of};
ghost use Rattle.session.specs.Saving.{SaveStep};
ghost use Rattle.session.specs.Telling.{VerdictStep};

use super::Locked;
use crate::workspace::Workspace;
use faults::Fault;
use verdict::Verdict;

impl Locked {
    pub fn verdict(&self) -> Verdict
        ensures step { VerdictStep self.now.numbers.progress result }
        ensures right { AlwaysRight Lists self.now.numbers.progress result }
    {
        self.numbers.verdict()
    }

    // Saves the current record, as a passing session does.
    pub fn save(&self, workspace: &Workspace, out: &mut [u8]) -> Result<usize, Fault>
        ensures step { SaveStep self.now.numbers.progress.passes (desk_of workspace.now).current out.old result out.new }
        ensures loads { LoadsAgain (desk_of workspace.now).current }
    {
        self.numbers.save(workspace, out)
    }
}
