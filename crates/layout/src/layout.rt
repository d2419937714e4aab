// The interface of layouts. What the calls mean is one record, `meaning`, and what every layout owes
// is a second one, `lawful`: generic code is proved from these two, for every layout at once.
ghost use Rattle.std.specs.Prelude.{◌≡◌, ℕ};
ghost use Rattle.layout.specs.Calls.{Rewound, WordSet, ParagraphEnded, PageEnded, spot_told, paper_told};
ghost use Rattle.layout.specs.Meaning.{Meaning, Lawful};
ghost use Rattle.layout.specs.Spots.{page_of, High, Wide, Stands};

use crate::refusal::Refusal;
use pages::Page;

pub trait Layout {
    // Where a word was put, in the layout's own terms.
    type Mark: Copy;

    // The letter that names the kind of layout.
    const LETTER: u8;

    ghost LETTER: { ℕ };

    // Settings and place, and what each call makes of them.
    ghost meaning: { Meaning Self Self.Mark };

    // The laws, which each `impl` shows.
    ghost lawful: { Lawful meaning };

    // Goes back to the opening place.
    fn rewind(&mut self)
        ensures { Rewound meaning self.old self.new };

    // Puts a word, or refuses it and keeps the place.
    fn set(&mut self, word: &[u8]) -> Result<Self::Mark, Refusal>
        ensures { WordSet meaning self.old self.new word.now result };

    // Ends the paragraph, and never refuses.
    fn end_paragraph(&mut self)
        ensures { ParagraphEnded meaning self.old self.new };

    // Ends the page, and never refuses.
    fn end_page(&mut self)
        ensures { PageEnded meaning self.old self.new };

    // The page of a mark.
    fn page(&self, mark: Self::Mark) -> Page
        ensures { result.number ≡ page_of (spot_told meaning self.now mark) };

    // The letter is that of the meaning.
    ghost lettered: { LETTER ≡ meaning.letter };
}

// A layout that also tells where on the page a word stands.
pub trait Printing: Layout {
    // How many lines a page has.
    fn height(&self) -> u8
        ensures { High (paper_told Self.Layout.meaning self.now) result };

    // How many columns a line has.
    fn width(&self) -> u8
        ensures { Wide (paper_told Self.Layout.meaning self.now) result };

    // The line and the column of a mark, both from 1.
    fn line_and_column(&self, mark: Self::Mark) -> (u8, u8)
        ensures { Stands (spot_told Self.Layout.meaning self.now mark) result.0 result.1 };
}
