// Saving the current record.
ghost use Rattle.recordlines.specs.Save.{LoadsAgain};
ghost use Rattle.session.specs.Desk.{desk_of};
ghost use Rattle.session.specs.Saving.{SaveStep};

use super::Numbers;
use crate::workspace::Workspace;
use faults::{Cause, Fault};
use recordlines::save_table;

impl Numbers {
    // Writes the lines of the current record at the front of the buffer and answers how many bytes they have, or changes nothing
    // where it is too short. They load as the same record.
    pub(crate) fn save(self, workspace: &Workspace, out: &mut [u8]) -> Result<usize, Fault>
        ensures step { SaveStep self.progress.passes (desk_of workspace.now).current out.old result out.new }
        ensures loads { LoadsAgain (desk_of workspace.now).current }
    {
        save_table(&workspace.current, out).map_err(|_| self.fault(Cause::BufferTooShort))
    }
}
