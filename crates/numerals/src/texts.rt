// The text of a heading's number.
ghost use Rattle.std.specs.Prelude.{◌≡◌, ◌+◌, ◌≤◌, ◌∷◌, ◌++◌, length};
ghost use Rattle.buffers.specs.Written.{Puts};
ghost use Rattle.numerals.specs.Numeral.{decimal};
ghost use Rattle.numerals.specs.Heading.{number_text};

use crate::decimals::push_decimal;
use crate::heading::HeadingNumber;
use crate::text::Text;
use buffers::put;

// Adds a point and a counter.
fn push_next(text: &mut Text, counter: u8)
    requires { length text.old.items + 4 ≤ 12 }
    ensures { text.new.items ≡ text.old.items ++ (46 ∷ decimal counter) }
{
    text.push(b'.');
    push_decimal(text, counter as u16);
}

impl HeadingNumber {
    // The counters up to the level, joined by points; 0 before any heading.
    pub fn text(self) -> Text
        ensures { result.items ≡ number_text self.level self.counters }
    {
        let mut text = Text::new();
        push_decimal(&mut text, self.counters.first as u16);
        if self.level >= 2 {
            push_next(&mut text, self.counters.second);
        }
        if self.level == 3 {
            push_next(&mut text, self.counters.third);
        }
        text
    }
}

// Writes the number of a heading into a buffer that the caller lends, and answers its end, or changes nothing where it does not fit.
pub fn heading_number(number: HeadingNumber, out: &mut [u8], at: usize) -> Option<usize>
    ensures { Puts (number_text number.level number.counters) out.old at result out.new }
{
    put(out, at, number.text().as_slice())
}
