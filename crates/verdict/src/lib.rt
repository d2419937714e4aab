// What is said of passes made one after the other: open, settled or oscillating. Plain numbers; the records stay with the caller.
#![tactic(auto)]

pub use outcome::{Outcome, Verdict};
pub use progress::Progress;
pub use right::right_verdict;

mod outcome;
mod progress;
mod right;
