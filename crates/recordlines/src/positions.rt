// Positions and entries from a frame's bytes.
ghost use Rattle.record.specs.Meaning.{label_of, position_of};
ghost use Rattle.record.specs.Positions.{label_ok, heading_ok};
ghost use Rattle.recordlines.specs.Raw.{raw, raw_label, Makes};

use faults::Cause;
use numerals::{Counters, HeadingNumber};
use pages::Page;
use record::{ContentsEntry, LabelEntry, Name};

// A position as the bytes have it, right or wrong.
#[derive(Clone, Copy)]
pub struct RawPosition {
    pub level: u8,
    pub counters: Counters,
    pub page: u16,
}

// The position that six bytes tell.
impl TryFrom<&[u8]> for RawPosition {
    ghost use Rattle.recordlines.specs.Raw.{Reads};

    type Error = Cause;

    ghost try_from_gives = { λ bytes result. Reads bytes.now result };

    fn try_from(bytes: &[u8]) -> Result<RawPosition, Cause> {
        match bytes {
            &[level, first, second, third, high, low] => Ok(RawPosition {
                level,
                counters: Counters {
                    first,
                    second,
                    third,
                },
                page: u16::from_be_bytes([high, low]),
            }),
            _ => Err(Cause::FrameMalformed),
        }
    }
}

// The label entry with this name and position, if they are right. Number and page are made here and below in a line each, which a
// function of their own would only name.
pub fn label_entry(name: &[u8], position: RawPosition) -> Option<LabelEntry>
    ensures { Makes label_ok label_of (raw_label name.now position) result }
{
    let name = Name::new(name)?;
    let number = HeadingNumber::new(position.level, position.counters)?;
    let page = Page::new(position.page)?;
    Some(LabelEntry { name, number, page })
}

// The contents entry with this position, if it is right.
pub fn contents_entry(position: RawPosition) -> Option<ContentsEntry>
    ensures { Makes heading_ok position_of (raw position) result }
{
    let number = HeadingNumber::new(position.level, position.counters)?;
    if position.level == 0 {
        return None;
    }
    let page = Page::new(position.page)?;
    Some(ContentsEntry { number, page })
}
