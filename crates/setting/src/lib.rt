// A compositor made of a layout and a keeper: the layout says where each word goes, and the keeper keeps what is wanted of it.
#![tactic(auto)]

pub use keeper::Keeper;
pub use tracing::keepers_hear;
pub use typesetter::Typesetter;

mod keeper;
mod tracing;
mod typesetter;
