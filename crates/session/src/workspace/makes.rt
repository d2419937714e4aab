// How a workspace is made.
ghost use Rattle.std.specs.Prelude.{◌≡◌, IfOk};
ghost use Rattle.record.specs.Lists.{no_entries};
ghost use Rattle.session.specs.Desk.{desk_of, both};

use super::Workspace;
use passes::Spare;
use record::Table;
use std::alloc::{AllocError, Global};

impl Workspace {
    // Both records empty. No call of a session allocates.
    pub fn new(heap: Global) -> Result<Workspace, AllocError>
        ensures { IfOk result (λ w. desk_of w ≡ both no_entries) }
    {
        let current = Table::new(heap)?;
        let anchor = Table::new(heap)?;
        let spare = Spare::new(heap)?;
        Ok(Workspace {
            current,
            anchor,
            spare,
        })
    }
}
