// How a word is set: where it stands, under a heading's number, or as its copy in the contents that a line asks for. Neither is a failure.
use numerals::HeadingNumber;

#[derive(Clone, Copy)]
pub enum Manner {
    InPlace(HeadingNumber),
    InContents(usize),
}
