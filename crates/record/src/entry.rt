// The entries of a record.
pub use contents::ContentsEntry;
pub use label::LabelEntry;

mod contents;
mod label;
