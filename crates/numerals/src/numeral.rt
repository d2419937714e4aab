// The numeral of a page.
ghost use Rattle.std.specs.Prelude.{◌≡◌};
ghost use Rattle.numerals.specs.Numeral.{numeral, PagePuts, NumeralLaws};

use crate::decimals::push_decimal;
use crate::romans::push_roman;
use crate::style::NumeralStyle;
use crate::text::Text;
use buffers::put;
use pages::Page;

// The numeral of a page. The numeral table loses nothing, and twelve bytes hold every page's numeral.
pub fn page_text(style: NumeralStyle, page: Page) -> Text
    ensures value { result.items ≡ numeral style page.number }
    ensures laws { NumeralLaws }
{
    let mut text = Text::new();
    match style {
        NumeralStyle::Decimal => push_decimal(&mut text, page.number()),
        NumeralStyle::Roman => push_roman(&mut text, page.number()),
    }
    text
}

// Writes the numeral of a page into a buffer that the caller lends, and answers its end. Changes nothing where the number is no page or the numeral does not fit.
pub fn page_numeral(style: NumeralStyle, page: u16, out: &mut [u8], at: usize) -> Option<usize>
    ensures { PagePuts style page out.old at result out.new }
{
    let page = Page::new(page)?;
    put(out, at, page_text(style, page).as_slice())
}
