// The parts of a word: a prefix, at most one mark, and a suffix.
#![tactic(auto)]

pub use mark::{Mark, Marked};
pub use parse::parse_word;

mod mark;
mod parse;
