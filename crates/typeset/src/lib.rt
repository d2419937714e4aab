// From a manuscript to what a compositor is asked for.
// 1. The manuscript is a list of items, one for each line.
// 2. Each word prints bytes of its own or, for a marked word, what the record of the pass before shows.
// 3. The walk asks a compositor for the acts of each item in turn.
#![tactic(auto)]

pub use telling::{NumeralBuffer, Telling};
pub use walking::walk;

mod manner;
mod numbering;
mod roles;
mod teller;
mod telling;
mod texts;
mod walking;
