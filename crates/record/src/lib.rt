// The page record: where labels and headings stand.
#![tactic(auto)]

pub use compare::{Entry, first_difference};
pub use entry::{ContentsEntry, LabelEntry};
pub use error::EntryError;
pub use name::Name;
pub use record::Record;
pub use table::Table;

mod compare;
mod entries;
mod entry;
mod error;
mod name;
mod record;
mod table;
