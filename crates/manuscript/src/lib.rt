// Checking a manuscript, and binding one that passes.
#![tactic(auto)]

pub use bound::Manuscript;
pub use bound::binding::bind;
pub use checking::check;
pub use counts::Counts;
pub use scan::{holds_title, name_span_of, span_of};

mod bound;
mod checking;
mod counts;
mod labels;
mod references;
mod scan;
mod tally;
