// A book that is being settled: the pages of its records so far, and what is printed of them.
use crate::failures::Failure;
use record::{ContentsEntry, LabelEntry, Table};
use session::{Passed, Workspace};
use std::alloc::{AllocError, Global};
use std::fmt::Write;
use verdict::Verdict;

#[derive(Drop)]
pub(crate) struct Book<'a> {
    rt: &'a HostRuntime,
    pub(crate) workspace: Workspace,
    // After each pass the pages of the labels, then those of the headings: a place has one index in every pass.
    history: Vec<Vec<u16>>,
}

impl<'a> Book<'a> {
    pub(crate) fn new(rt: &'a HostRuntime) -> Result<Book<'a>, AllocError> {
        Ok(Book {
            rt,
            workspace: Workspace::new(rt.alloc())?,
            history: Vec::new(rt.alloc()),
        })
    }

    // Adds the pages of the current record.
    pub(crate) fn keep_pages(&mut self) -> Result<(), AllocError> {
        let table = self.workspace.current();
        let labels = table.labels().iter().map(|entry| entry.page.number());
        let headings = table.contents().iter().map(|entry| entry.page.number());
        let pages: Vec<u16> = labels.chain(headings).collect(self.rt.alloc())?;
        self.history.push(pages)?;
        Ok(())
    }

    // The labels whose page is not the one that they had before; a label that was unknown had `??`.
    fn moved_labels(&self) -> Result<String, AllocError> {
        let mut moved = String::new(self.rt.alloc());
        for (i, entry) in self.workspace.current().labels().iter().enumerate() {
            let page = entry.page.number();
            let name = entry_name(entry);
            match self.history.last().and_then(|pages| pages.get(i)) {
                Some(old) if *old == page => {}
                Some(old) => write!(moved, "; {name} {old} to {page}")?,
                None => write!(moved, "; {name} ?? to {page}")?,
            }
        }
        Ok(moved)
    }

    pub(crate) fn print_pass(&self, passed: Passed) -> Result<(), Failure> {
        let Passed { number, words } = passed;
        let moved = self.moved_labels()?;
        println!(self.rt; "pass {number}: {words} words{moved}")?;
        Ok(())
    }

    pub(crate) fn print_verdict(&self, verdict: Verdict) -> Result<(), Failure> {
        match verdict {
            Verdict::Open { passes } => println!(self.rt; "open after {passes} passes")?,
            Verdict::Settled { passes, since } => {
                println!(self.rt; "settled after {passes} passes, period 1 since pass {since}")?;
            }
            Verdict::Oscillates {
                passes,
                period,
                since,
            } => {
                println!(self.rt;
                    "oscillates after {passes} passes, period {period} since pass {since}"
                )?;
                self.print_swings(since as usize)?;
            }
        }
        Ok(())
    }

    // What stands on several pages from a pass on, and on which.
    fn print_swings(&self, since: usize) -> Result<(), Failure> {
        let places = places(self.rt.alloc(), self.workspace.current())?;
        for (i, place) in places.iter().enumerate() {
            let pages = self.pages_at(i, since)?;
            if pages.len() > 1 {
                let pages = listed(self.rt.alloc(), &pages)?;
                println!(self.rt; "{place} swings between pages {pages}")?;
            }
        }
        Ok(())
    }

    // The pages that the i-th place has in the records, each once, in the order of the passes.
    fn pages_at(&self, i: usize, since: usize) -> Result<Vec<u16>, AllocError> {
        let mut pages = Vec::new(self.rt.alloc());
        let records = self.history.iter().skip(since.saturating_sub(1));
        for page in records.filter_map(|record| record.get(i)) {
            if !pages.contains(page) {
                pages.push(*page)?;
            }
        }
        Ok(pages)
    }
}

fn entry_name(entry: &LabelEntry) -> &str {
    std::str::from_utf8(entry.name.as_bytes()).unwrap_or("?")
}

fn label_place(heap: Global, entry: &LabelEntry) -> Result<String, AllocError> {
    let name = entry_name(entry);
    format!(in heap; "label {name}")
}

fn heading_place(heap: Global, entry: &ContentsEntry) -> Result<String, AllocError> {
    let text = entry.number.text();
    let number = std::str::from_utf8(text.as_slice()).unwrap_or("?");
    format!(in heap; "heading {number}")
}

// What the places of a record are called: the labels, then the headings.
fn places(heap: Global, table: &Table) -> Result<Vec<String>, AllocError> {
    let labels = table.labels().iter().map(|entry| label_place(heap, entry));
    let headings = table
        .contents()
        .iter()
        .map(|entry| heading_place(heap, entry));
    labels.chain(headings).try_collect(heap)
}

fn listed(heap: Global, pages: &[u16]) -> Result<String, AllocError> {
    let numbers: Vec<String> = pages
        .iter()
        .map(|page| format!(in heap; "{page}"))
        .try_collect(heap)?;
    numbers.join(heap, ", ")
}
