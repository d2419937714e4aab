// What a manuscript has of each.
#[derive(Clone, Copy, PartialEq, Eq, Debug)]
pub struct Counts {
    pub lines: usize,
    pub labels: usize,
    pub headings: usize,
}
