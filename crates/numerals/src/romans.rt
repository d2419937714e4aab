// Roman numerals by the numeral table.
ghost use Rattle.std.specs.Prelude.{◌≡◌, ◌+◌, ◌%◌, ◌/◌, ◌<◌, ◌≤◌, ◌++◌, length, replicate};
ghost use Rattle.std.specs.List.{flat_map};
ghost use Rattle.numerals.specs.Roman.{letters, roman};

use crate::text::Text;

// A row's value and its letters, one or two.
type Row = (u16, u8, Option<u8>);

const ROWS: [Row; 12] = [
    (900, b'c', Some(b'm')),
    (500, b'd', None),
    (400, b'c', Some(b'd')),
    (100, b'c', None),
    (90, b'x', Some(b'c')),
    (50, b'l', None),
    (40, b'x', Some(b'l')),
    (10, b'x', None),
    (9, b'i', Some(b'x')),
    (5, b'v', None),
    (4, b'i', Some(b'v')),
    (1, b'i', None),
];

// Adds the letters of a row.
fn push_letters(text: &mut Text, row: Row)
    requires { length text.old.items + length (letters row) ≤ 12 }
    ensures { text.new.items ≡ text.old.items ++ letters row }
{
    let (_, first, second) = row;
    text.push(first);
    if let Some(second) = second {
        text.push(second);
    }
}

// Adds the letters of a row as often as its value goes into a number, and answers what is left of the number.
fn push_row(text: &mut Text, row: Row, n: u16) -> u16
    requires value { 0 < row.0 }
    requires room { length text.old.items + length (flat_map letters (replicate (n / row.0) row)) ≤ 12 }
    ensures rest { result ≡ n % row.0 }
    ensures items { text.new.items ≡ text.old.items ++ flat_map letters (replicate (n / row.0) row) }
{
    // By subtraction: most rows do not go into what is left and none goes in more than three times, so a division for each row costs more.
    let mut rest = n;
    while rest >= row.0 {
        push_letters(text, row);
        rest -= row.0;
    }
    rest
}

// Adds the roman numeral of a number for which there is room.
pub fn push_roman(text: &mut Text, n: u16)
    requires { length text.old.items + length (roman n) ≤ 12 }
    ensures { text.new.items ≡ text.old.items ++ roman n }
{
    let mut rest = n;
    for row in &ROWS {
        rest = push_row(text, *row, rest);
    }
}
