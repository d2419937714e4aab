// A session: passes over one manuscript until the records they make settle.
#![tactic(auto)]

pub use passed::Passed;
pub use sessions::{Locked, Passing, open};
pub use workspace::Workspace;

mod numbers;
mod passed;
mod sessions;
mod workspace;
