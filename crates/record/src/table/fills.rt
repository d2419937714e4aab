// How a table is filled: an entry is lent, and it alone changes.
ghost use Rattle.std.specs.Prelude.{◌≡◌, ◌<◌, length};
ghost use Rattle.record.specs.Naming.{name_bytes};
ghost use Rattle.record.specs.Lists.{lists_of, put_position, Fills, PutsLabel, PutsHeading, PageAt};
ghost use Rattle.record.specs.Meaning.{placed};

use super::Table;
use crate::entry::{ContentsEntry, LabelEntry};
use crate::error::EntryError;
use crate::name::Name;
use numerals::HeadingNumber;
use pages::Page;

// The page with this number.
fn page_at(number: u16) -> Result<Page, EntryError>
    ensures { PageAt number result }
{
    Page::new(number).ok_or(EntryError::NoPage)
}

impl Table {
    // Gives a label entry its number and page; all else stays.
    fn fill_entry(&mut self, i: usize, number: HeadingNumber, page: Page)
        requires { i < length (lists_of self.old).labels }
        ensures { lists_of self.new ≡ put_position (lists_of self.old) i (placed number page.number) }
    {
        let entry = self.labels.entry(i);
        entry.number = number;
        entry.page = page;
    }

    // Gives the i-th label entry its number and page, if there is such an entry and page; all else stays. Number and page stay two
    // parameters, here and below: the page may be none, so the two are no position yet.
    pub fn fill(&mut self, i: usize, number: HeadingNumber, page: u16) -> Result<(), EntryError>
        ensures { Fills result (lists_of self.old) i (placed number page) (lists_of self.new) }
    {
        if i >= self.label_count() {
            return Err(EntryError::Absent);
        }
        let page = page_at(page)?;
        self.fill_entry(i, number, page);
        Ok(())
    }

    // Adds an entry for a label at the end and fills it, if the page is one and there is room.
    pub fn put_label(
        &mut self,
        name: Name,
        number: HeadingNumber,
        page: u16,
    ) -> Result<(), EntryError>
        ensures { PutsLabel result (lists_of self.old) (record { name = name_bytes name; position = placed number page }) (lists_of self.new) }
    {
        let page = page_at(page)?;
        let place = self.label_count();
        self.add_label(LabelEntry {
            name,
            number: HeadingNumber::before_any(),
            page: Page::first(),
        })?;
        self.fill_entry(place, number, page);
        Ok(())
    }

    // Adds a contents entry at the end, if the number is a heading's, the page is one and there is room.
    pub fn put_contents(&mut self, number: HeadingNumber, page: u16) -> Result<(), EntryError>
        ensures { PutsHeading result (lists_of self.old) (placed number page) (lists_of self.new) }
    {
        if number.level == 0 {
            return Err(EntryError::NoHeading);
        }
        let page = page_at(page)?;
        self.add_contents(ContentsEntry { number, page })
    }
}
