// The reader of a manuscript: its lines one after the other, the kinds of line, and the words of a line.
#![tactic(auto)]

pub use kinds::{Kind, kind_of, level_of, prose_start};
pub use place::{Line, LineWord, Place, Word};
pub use reader::Reader;
pub use words::{Words, next_word};

mod kinds;
mod place;
mod reader;
mod words;
