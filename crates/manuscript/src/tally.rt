// What the lines read so far hold.
use crate::labels::Labels;

#[derive(Drop)]
pub struct Tally<'a> {
    pub headings: usize,
    pub contents: bool,
    pub labels: Labels<'a>,
}
