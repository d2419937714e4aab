// Numerals of pages, in decimal or lower-case roman, and numbers of headings.
#![tactic(auto)]

pub use counters::Counters;
pub use exact::Exact;
pub use heading::HeadingNumber;
pub use numeral::{page_numeral, page_text};
pub use style::{NumeralStyle, UnknownStyle};
pub use text::Text;
pub use texts::heading_number;

mod counters;
mod decimals;
mod exact;
mod heading;
mod numeral;
mod romans;
mod style;
mod text;
mod texts;
