// How a table is made, emptied, read and added to.
ghost use Rattle.std.specs.Prelude.{◌≡◌, ◌≤◌, map, length, IfOk};
ghost use Rattle.record.specs.Lists.{lists_of, no_entries, AddsLabel, AddsHeading};
ghost use Rattle.record.specs.Meaning.{label_of, position_of};

use super::Table;
use crate::entries::Entries;
use crate::entry::{ContentsEntry, LabelEntry};
use crate::error::EntryError;
use std::alloc::{AllocError, Global};

impl Table {
    // An empty table, with room for all that a record may hold. No other call on it allocates.
    pub fn new(heap: Global) -> Result<Table, AllocError>
        ensures { IfOk result (λ t. lists_of t ≡ no_entries) }
    {
        Ok(Table {
            labels: Entries::new(heap)?,
            contents: Entries::new(heap)?,
        })
    }

    pub fn clear(&mut self)
        ensures { lists_of self.new ≡ no_entries }
    {
        self.labels.clear();
        self.contents.clear();
    }

    // From here on one call for each list, by the list's name: what they do is done once, by `Entries`.
    pub fn labels(&self) -> &[LabelEntry]
        ensures value { map label_of result.now ≡ (lists_of self.now).labels }
        ensures bound { length result.now ≤ 128 }
    {
        self.labels.as_slice()
    }

    pub fn contents(&self) -> &[ContentsEntry]
        ensures value { map position_of result.now ≡ (lists_of self.now).contents }
        ensures bound { length result.now ≤ 128 }
    {
        self.contents.as_slice()
    }

    pub fn label_count(&self) -> usize
        ensures value { result ≡ length (lists_of self.now).labels }
        ensures bound { result ≤ 128 }
    {
        self.labels.len()
    }

    pub fn contents_count(&self) -> usize
        ensures value { result ≡ length (lists_of self.now).contents }
        ensures bound { result ≤ 128 }
    {
        self.contents.len()
    }

    // Adds a label entry at the end, if there is room.
    pub fn add_label(&mut self, entry: LabelEntry) -> Result<(), EntryError>
        ensures { AddsLabel result (lists_of self.old) (label_of entry) (lists_of self.new) }
    {
        self.labels.push(entry)
    }

    // Adds a contents entry at the end, if there is room.
    pub fn add_contents(&mut self, entry: ContentsEntry) -> Result<(), EntryError>
        ensures { AddsHeading result (lists_of self.old) (position_of entry) (lists_of self.new) }
    {
        self.contents.push(entry)
    }
}
