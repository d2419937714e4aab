// The text of a numeral.
use arrayvec::ArrayVec;

// Room for the numeral of any page, and for the number of any heading.
pub type Text = ArrayVec<u8, 12>;
