// What a layout is: it takes words one after the other, and says where each stands.
#![tactic(auto)]

pub use layout::{Layout, Printing};
pub use refusal::Refusal;
pub use runs::{page_size, printed_order, reading_order};

mod layout;
mod refusal;
mod runs;
