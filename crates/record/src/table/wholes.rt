// Tables compared and copied as wholes.
ghost use Rattle.std.specs.Prelude.{◌≡◌, Decides};
ghost use Rattle.record.specs.Lists.{lists_of};

use super::Table;
use crate::compare::equal_lists;

impl Table {
    // Whether the two hold the same entries in the same order. No derived `==`: one comparison for all lists is the form asked for.
    pub fn same(&self, other: &Table) -> bool
        ensures { Decides result (lists_of self.now ≡ lists_of other.now) }
    {
        equal_lists(self.labels.as_slice(), other.labels.as_slice())
            && equal_lists(self.contents.as_slice(), other.contents.as_slice())
    }

    // Makes this table hold what `other` holds.
    pub fn copy_from(&mut self, other: &Table)
        ensures { lists_of self.new ≡ lists_of other.now }
    {
        self.labels.copy_from(&other.labels);
        self.contents.copy_from(&other.contents);
    }
}
