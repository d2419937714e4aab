// Saving the current record.
ghost use Rattle.recordlines.specs.Save.{LoadsAgain};
ghost use Rattle.session.specs.Desk.{desk_of};
ghost use Rattle.session.specs.Saving.{SaveStep};

use super::Passing;
use crate::workspace::Workspace;
use faults::Fault;

impl Passing {
    // Saves the current record and answers how many bytes its lines have. They load as the same record.
    pub fn save(&self, workspace: &Workspace, out: &mut [u8]) -> Result<usize, Fault>
        ensures step { SaveStep self.now.numbers.progress.passes (desk_of workspace.now).current out.old result out.new }
        ensures loads { LoadsAgain (desk_of workspace.now).current }
    {
        self.numbers.save(workspace, out)
    }
}
