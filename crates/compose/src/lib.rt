// What a manuscript asks of whatever sets its words, act by act. A compositor takes the acts: it sets a word, ends a paragraph or
// ends a page. Whoever walks a manuscript knows compositors only by this interface.
#![tactic(auto)]

pub use acts::{Role, Source};
pub use compositor::Compositor;

mod acts;
mod compositor;
