// How a record is made, read, compared and added to.
ghost use Rattle.std.specs.Prelude.{◌≡◌, true, IfOk, Decides};
ghost use Rattle.record.specs.Labels.{distinct};
ghost use Rattle.record.specs.Lists.{lists_of, no_entries, AddsNewLabel, AddsHeading};
ghost use Rattle.record.specs.Meaning.{label_of, position_of};
ghost use Rattle.record.specs.Records.{record_lists};

use super::Record;
use crate::entry::{ContentsEntry, LabelEntry};
use crate::error::EntryError;
use crate::table::Table;
use std::alloc::{AllocError, Global};

impl Record {
    // The empty record, with room for all that a record may hold. No other call on it allocates.
    pub fn empty(heap: Global) -> Result<Record, AllocError>
        ensures { IfOk result (λ x. record_lists x ≡ no_entries) }
    {
        let table = Table::new(heap)?;
        Ok(Record { table })
    }

    pub fn table(&self) -> &Table
        ensures value { lists_of result.now ≡ record_lists self.now }
        ensures apart { distinct (lists_of result.now).labels ≡ true }
    {
        &self.table
    }

    // Whether the two hold the same entries in the same order. No derived `==`: one comparison for all lists is the form asked for.
    pub fn same(&self, other: &Record) -> bool
        ensures { Decides result (record_lists self.now ≡ record_lists other.now) }
    {
        self.table.same(&other.table)
    }

    // Adds a label entry at the end, if its name is new and there is room.
    pub fn add_label(&mut self, entry: LabelEntry) -> Result<(), EntryError>
        ensures { AddsNewLabel result (record_lists self.old) (label_of entry) (record_lists self.new) }
    {
        if self.table.find(&entry.name).is_some() {
            return Err(EntryError::Repeated);
        }
        self.table.add_label(entry)
    }

    // Adds a contents entry at the end, if there is room.
    pub fn add_contents(&mut self, entry: ContentsEntry) -> Result<(), EntryError>
        ensures { AddsHeading result (record_lists self.old) (position_of entry) (record_lists self.new) }
    {
        self.table.add_contents(entry)
    }
}
