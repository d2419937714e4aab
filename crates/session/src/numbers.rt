// The numbers of a session, of either kind.
use numerals::NumeralStyle;
use verdict::Progress;

mod refuses;
mod saves;
mod tells;

// The style of the numerals, how many passes are allowed, and how far the session is.
#[derive(Clone, Copy)]
pub(crate) struct Numbers {
    pub(crate) style: NumeralStyle,
    pub(crate) limit: u8,
    pub(crate) progress: Progress,
}
