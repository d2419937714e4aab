// What an accepted pass answers.

// The number of the pass, from 1, and how many words were set.
#[derive(Clone, Copy)]
pub struct Passed {
    pub number: u8,
    pub words: usize,
}
