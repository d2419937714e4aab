// The labels of a manuscript so far: their names, in order, as parts of the text.
use arrayvec::ArrayVec;

pub mod table;

#[derive(Drop)]
pub struct Labels<'a> {
    names: ArrayVec<&'a [u8], 128>,
}
