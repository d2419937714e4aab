// The memory of a session. All room is reserved when it is made.
ghost use Rattle.std.specs.Prelude.{◌≡◌, true};
ghost use Rattle.record.specs.Labels.{distinct};
ghost use Rattle.record.specs.Lists.{lists_of};

use passes::Spare;
use record::Table;

mod makes;
mod reads;

// The current record and the anchor's, in which no two labels have one name; the rest is free between calls.
#[derive(Drop)]
pub struct Workspace {
    pub(crate) current: Table,
    pub(crate) anchor: Table,
    pub(crate) spare: Spare,
    ghost apart: { (distinct (lists_of current).labels ≡ true) × (distinct (lists_of anchor).labels ≡ true) },
}
