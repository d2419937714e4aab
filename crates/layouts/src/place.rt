// The place of a layout whose pages have lines: the page, the line, and how much of the line is used.
use pages::Page;

#[derive(Clone, Copy, PartialEq, Eq)]
pub struct Place {
    pub(crate) page: Page,
    pub(crate) line: u8,
    pub(crate) used: u8,
}
