// What the laws give of whole runs, for every layout.
ghost use Rattle.layout.specs.Calls.{paper_told};
ghost use Rattle.layout.specs.Runs.{ReadingOrder, PrintedOrder, ReadsWithin};
ghost use Rattle.layout.specs.Spots.{High, Wide};

use crate::layout::{Layout, Printing};

// The words of an accepted run stand apart and inside the page, on pages that never go back;
// where a page has lines they strictly ascend in reading order.
pub fn reading_order<L: Layout>()
    ensures order { ReadingOrder L.meaning }
    ensures within { PrintedOrder L.meaning }
{}

// The height and the width of a page.
pub fn page_size<P: Printing>(layout: &P) -> (u8, u8)
    ensures high { High (paper_told P.Layout.meaning layout.now) result.0 }
    ensures wide { Wide (paper_told P.Layout.meaning layout.now) result.1 }
{
    (layout.height(), layout.width())
}

// The same, and that the words of every accepted run stand in reading order inside such pages.
pub fn printed_order<P: Printing>(layout: &P) -> (u8, u8)
    ensures high { High (paper_told P.Layout.meaning layout.now) result.0 }
    ensures wide { Wide (paper_told P.Layout.meaning layout.now) result.1 }
    ensures reads { ReadsWithin P.Layout.meaning (P.Layout.meaning.settings layout.now) result.0 result.1 }
{
    reading_order::<P>();
    page_size(layout)
}
