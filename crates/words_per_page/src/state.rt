// The settings, the place, the marks and the value of the layout.
ghost use Rattle.std.specs.Prelude.{◌≤◌};

use pages::Page;

// The settings: how many words a page takes.
#[derive(Clone, Copy)]
pub struct Quota {
    pub(crate) words: u8,
    ghost some: { 1 ≤ words },
}

// The page, and how many words it has.
#[derive(Clone, Copy)]
pub struct Count {
    pub(crate) page: Page,
    pub(crate) words: u8,
}

// The page of a word.
#[derive(Clone, Copy)]
pub struct PageMark {
    pub(crate) page: Page,
}

#[derive(Drop)]
pub struct WordsPerPage {
    pub(crate) quota: Quota,
    pub(crate) count: Count,
    ghost counted: { count.words ≤ quota.words },
}
