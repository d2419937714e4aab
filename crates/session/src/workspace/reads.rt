// Reading a workspace.
ghost use Rattle.std.specs.Prelude.{◌≡◌};
ghost use Rattle.record.specs.Lists.{lists_of};
ghost use Rattle.session.specs.Desk.{desk_of};

use super::Workspace;
use record::Table;

impl Workspace {
    // The current record.
    pub fn current(&self) -> &Table
        ensures { lists_of result.now ≡ (desk_of self.now).current }
    {
        &self.current
    }
}
