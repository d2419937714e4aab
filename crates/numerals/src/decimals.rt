// Decimal numerals of numbers below 1000.
ghost use Rattle.std.specs.Prelude.{◌≡◌, ◌+◌, ◌<◌, ◌≤◌, ◌++◌, length};
ghost use Rattle.numerals.specs.Numeral.{decimal};

use crate::text::Text;

// Adds the decimal numeral of a number for which there is room. By hand: `write!` answers a Result that cannot fail here. Each of these
// calls asks for the room of another text, so the room is no fact of a type.
pub fn push_decimal(text: &mut Text, n: u16)
    requires below { n < 1000 }
    requires room { length text.old.items + length (decimal n) ≤ 12 }
    ensures { text.new.items ≡ text.old.items ++ decimal n }
{
    if n >= 100 {
        text.push(b'0' + (n / 100) as u8);
    }
    if n >= 10 {
        let tens = b'0' + (n / 10 % 10) as u8;
        text.push(tens);
    }
    text.push(b'0' + (n % 10) as u8);
}
