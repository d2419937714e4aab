// The smallest layout, as an example: a page takes a fixed number of words. It knows no lines, so it pages and does not print.
#![tactic(auto)]

ghost use Rattle.std.specs.Prelude.{◌≡◌, refl};
ghost use Rattle.layout.specs.Runs.{ReadingOrder};
ghost use Rattle.words_per_page.specs.Counting.{counting, counted, place, Made};
ghost use Rattle.words_per_page.specs.Laws.{counting_lawful};

use layout::{Layout, Refusal, reading_order};
use pages::Page;
pub use state::{Count, PageMark, Quota, WordsPerPage};

mod state;

impl Count {
    // Page 1, with no word on it.
    fn opening() -> Count
        ensures { counted result ≡ place 1 0 }
    {
        Count {
            page: Page::first(),
            words: 0,
        }
    }
}

impl WordsPerPage {
    // At the opening place; a page takes at least one word.
    pub fn new(words: u8) -> Option<WordsPerPage>
        ensures { Made words result }
    {
        if words == 0 {
            return None;
        }
        Some(WordsPerPage {
            quota: Quota { words },
            count: Count::opening(),
        })
    }
}

impl Layout for WordsPerPage {
    type Mark = PageMark;

    const LETTER: u8 = b'W';

    ghost LETTER = { 87 };

    ghost meaning = { counting };

    ghost lawful = { counting_lawful };

    ghost lettered = { refl };

    fn rewind(&mut self) {
        self.count = Count::opening();
    }

    fn set(&mut self, word: &[u8]) -> Result<PageMark, Refusal> {
        if word.is_empty() || word.len() > 72 {
            return Err(Refusal::WordTooWide);
        }
        let Count { page, words } = self.count;
        if words < self.quota.words {
            self.count.words = words + 1;
            return Ok(PageMark { page });
        }
        let next = page.next().ok_or(Refusal::PagesUsedUp)?;
        self.count = Count {
            page: next,
            words: 1,
        };
        Ok(PageMark { page: next })
    }

    fn end_paragraph(&mut self) {}

    fn end_page(&mut self) {
        if self.count.words > 0 {
            self.count.words = self.quota.words;
        }
    }

    fn page(&self, mark: PageMark) -> Page {
        mark.page
    }
}

// The pages of the words of every accepted run never go back: the generic function of `layout`, for these settings.
pub fn pages_in_order()
    ensures { ReadingOrder counting }
{
    reading_order::<WordsPerPage>();
}
