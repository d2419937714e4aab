// What a pass keeps of the words that a layout put: the new record, and how many words there are.
#![tactic(auto)]

pub use laws::findings_hold;
pub use state::Findings;

mod laws;
mod state;
