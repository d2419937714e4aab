// The plain table of entries that a pass fills.
use crate::entries::Entries;
use crate::entry::{ContentsEntry, LabelEntry};

mod fills;
mod finds;
mod makes;
mod wholes;

#[derive(Drop)]
pub struct Table {
    labels: Entries<LabelEntry>,
    contents: Entries<ContentsEntry>,
}
