// The lookup of a label.
ghost use Rattle.std.specs.Prelude.{◌≡◌, ◌<◌, length, IfSome};
ghost use Rattle.record.specs.Naming.{name_bytes};
ghost use Rattle.record.specs.Labels.{place_of};
ghost use Rattle.record.specs.Lists.{lists_of};

use super::Table;
use crate::name::Name;

impl Table {
    // The place of the first label entry with this name.
    pub fn find(&self, name: &Name) -> Option<usize>
        ensures value { result ≡ place_of (name_bytes name.now) (lists_of self.now).labels }
        ensures bound { IfSome result (λ i. i < length (lists_of self.now).labels) }
    {
        let entries = self.labels.as_slice();
        entries.iter().position(|entry| entry.name == *name)
    }
}
