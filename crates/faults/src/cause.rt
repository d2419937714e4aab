// Why a call refuses, with the number and the layer that stand for it in answers.
ghost use Rattle.std.specs.Prelude.{◌≡◌};
ghost use Rattle.faults.specs.Numbers.{number_of, layer_of, layer_number};

use std::fmt;

#[derive(Clone, Copy, PartialEq, Eq, Debug)]
pub enum Cause {
    ManuscriptTooLong = 1,
    ByteNotAllowed = 2,
    HeadingMalformed = 3,
    DirectiveUnknown = 4,
    SecondContents = 5,
    MarkMalformed = 6,
    MarkedWordTooLong = 7,
    LabelRepeated = 8,
    TooManyLabels = 9,
    TooManyHeadings = 10,
    ReferenceWithoutLabel = 11,
    PassLimitReached = 12,
    VerdictReached = 13,
    WordTooWide = 14,
    PagesUsedUp = 15,
    LayoutSettings = 16,
    SessionSettings = 17,
    NotSettled = 18,
    PageAbsent = 19,
    BufferTooShort = 20,
    FrameMalformed = 21,
    FrameInvalid = 22,
}

// The part of the product that refuses.
#[derive(Clone, Copy, PartialEq, Eq, Debug)]
pub enum Layer {
    Reader = 1,
    LabelTable = 2,
    Session = 3,
    Layout = 4,
    RecordLines = 5,
}

// A method and no `From`: its name says which of number and layer is meant.
impl Cause {
    pub fn number(self) -> u8
        ensures { result ≡ number_of self }
    {
        self as u8
    }

    pub fn layer(self) -> Layer
        ensures { result ≡ layer_of self }
    {
        match self {
            Cause::ManuscriptTooLong
            | Cause::ByteNotAllowed
            | Cause::HeadingMalformed
            | Cause::DirectiveUnknown
            | Cause::SecondContents
            | Cause::MarkMalformed
            | Cause::MarkedWordTooLong => Layer::Reader,
            Cause::LabelRepeated
            | Cause::TooManyLabels
            | Cause::TooManyHeadings
            | Cause::ReferenceWithoutLabel => Layer::LabelTable,
            Cause::WordTooWide | Cause::PagesUsedUp | Cause::LayoutSettings => Layer::Layout,
            Cause::FrameMalformed | Cause::FrameInvalid => Layer::RecordLines,
            _ => Layer::Session,
        }
    }
}

impl Layer {
    pub fn number(self) -> u8
        ensures { result ≡ layer_number self }
    {
        self as u8
    }
}

// The cause in words, for people.
impl fmt::Display for Cause {
    fn fmt<W: fmt::Write>(&self, f: &mut fmt::Formatter<W>) -> fmt::Result {
        f.write_str(match self {
            Cause::ManuscriptTooLong => "the manuscript has more than 60000 bytes",
            Cause::ByteNotAllowed => "a byte is neither a newline nor 32 to 126",
            Cause::HeadingMalformed => "a heading is not one to three '#', spaces and a title",
            Cause::DirectiveUnknown => "a directive is neither '!contents' nor '!page'",
            Cause::SecondContents => "'!contents' stands a second time",
            Cause::MarkMalformed => "a mark, its name or its place is wrong",
            Cause::MarkedWordTooLong => "more than 60 bytes stand around a mark",
            Cause::LabelRepeated => "the label is defined before",
            Cause::TooManyLabels => "there are more than 128 labels",
            Cause::TooManyHeadings => "there are more than 128 headings",
            Cause::ReferenceWithoutLabel => "the reference has no label",
            Cause::PassLimitReached => "all allowed passes are made",
            Cause::VerdictReached => "the book is settled or oscillates already",
            Cause::WordTooWide => "a word is too wide",
            Cause::PagesUsedUp => "there is no page after 999",
            Cause::LayoutSettings => "the layout's settings are out of range",
            Cause::SessionSettings => "the numeral letter or the pass limit is wrong",
            Cause::NotSettled => "the book is not settled",
            Cause::PageAbsent => "the book has no such page",
            Cause::BufferTooShort => "the buffer is too short",
            Cause::FrameMalformed => "a record line is malformed",
            Cause::FrameInvalid => "a record line breaks the rules of a record",
        })
    }
}
