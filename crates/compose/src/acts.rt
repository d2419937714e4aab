// What a word is in its manuscript, and where it comes from.
use faults::Span;
use numerals::HeadingNumber;
use record::Name;

// A label has its name and number, a heading's number word the number. A reference has the label that it names, and how many bytes
// stand before and after what it shows. A word of the contents is no more than that, so it can move no label.
#[derive(Clone, Copy)]
pub enum Role {
    Plain,
    Label(Name, HeadingNumber),
    Heading(HeadingNumber),
    PageReference(Name, u8, u8),
    NumberReference(Name, u8, u8),
    Contents,
}

// The line that makes a word appear, and the name in its mark, if it has one, as a fault has them.
#[derive(Clone, Copy)]
pub struct Source {
    pub line: usize,
    pub name: Option<Span>,
}
