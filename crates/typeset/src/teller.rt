// Who tells a compositor what a manuscript wants set: the manuscript, what its words are told from, the buffer that their texts are
// built in, and the compositor.
use crate::telling::{NumeralBuffer, Telling};
use manuscript::Manuscript;

mod contents;
mod headings;
mod lines;
mod speaking;
mod words;

#[derive(Drop)]
pub struct Teller<'t, 'n, 'c, C> {
    pub manuscript: Manuscript<'t>,
    pub telling: Telling<'t>,
    pub numerals: &'n mut NumeralBuffer,
    pub compositor: &'c mut C,
}
