// A finished record: a table in which no two labels have one name.
ghost use Rattle.std.specs.Prelude.{◌≡◌, true};
ghost use Rattle.record.specs.Labels.{distinct};
ghost use Rattle.record.specs.Lists.{lists_of};

use crate::table::Table;

mod grows;

#[derive(Drop)]
pub struct Record {
    table: Table,
    ghost apart: { distinct (lists_of table).labels ≡ true },
}
