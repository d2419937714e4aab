// The frames of entries.
ghost use Rattle.std.specs.Prelude.{◌≡◌, ℕ, ◌+◌, ◌≤◌, ◌++◌, List, length};
ghost use Rattle.record.specs.Lists.{lists_of};
ghost use Rattle.record.specs.Meaning.{label_of, placed, position_of};
ghost use Rattle.recordlines.specs.Frame.{position_bytes_lem, label_frame, contents_frame, end_frame as end_frame_lem};

use arrayvec::ArrayVec;
use numerals::HeadingNumber;
use pages::Page;
use record::{ContentsEntry, LabelEntry, Table};

// Room for any frame.
pub type Frame = ArrayVec<u8, 24>;

// What is saved as one frame.
pub trait Framed {
    ghost frame: { Self → List ℕ };

    fn frame(&self) -> Frame
        ensures { result.items ≡ frame self.now };

    // How many bytes the frame has: a length by itself, as saving asks for the lengths of all before it writes any.
    fn frame_length(&self) -> usize
        ensures value { result ≡ length (frame self.now) }
        ensures bound { result ≤ 24 };
}

// Adds bytes for which there is room.
fn append(frame: &mut Frame, bytes: &[u8])
    requires { length frame.old.items + length bytes.now ≤ 24 }
    ensures { frame.new.items ≡ frame.old.items ++ bytes.now }
{
    frame.try_extend_from_slice(bytes).unwrap();
}

// Level, counters, page high, page low.
fn position_bytes(number: HeadingNumber, page: Page) -> [u8; 6]
    ensures { result ≡ position_bytes_lem (placed number page.number) }
{
    let counters = number.counters;
    let [high, low] = page.number().to_be_bytes();
    [
        number.level,
        counters.first,
        counters.second,
        counters.third,
        high,
        low,
    ]
}

impl Framed for LabelEntry {
    ghost frame = { λ e. label_frame (label_of e) };

    fn frame(&self) -> Frame {
        let name = self.name.as_bytes();
        let mut frame = Frame::new();
        append(&mut frame, &[0x4C, name.len() as u8]);
        append(&mut frame, name);
        append(&mut frame, &position_bytes(self.number, self.page));
        frame
    }

    fn frame_length(&self) -> usize {
        8 + self.name.as_bytes().len()
    }
}

impl Framed for ContentsEntry {
    ghost frame = { λ e. contents_frame (position_of e) };

    fn frame(&self) -> Frame {
        let mut frame = Frame::new();
        frame.push(0x43);
        append(&mut frame, &position_bytes(self.number, self.page));
        frame
    }

    fn frame_length(&self) -> usize {
        7
    }
}

// The frame that ends a record.
pub fn end_frame(table: &Table) -> Frame
    ensures { result.items ≡ end_frame_lem (lists_of table.now) }
{
    let labels = table.label_count() as u8;
    let contents = table.contents_count() as u8;
    let mut frame = Frame::new();
    append(&mut frame, &[0x45, labels, contents]);
    frame
}
