// How the numbers of headings go on.
ghost use Rattle.std.specs.Prelude.{◌≡◌, ◌+◌, ◌<◌, ◌≤◌, true, if◌then◌else◌};
ghost use Rattle.compose.specs.Acts.{number_of};
ghost use Rattle.manuscript.specs.Rules.{line_kept};
ghost use Rattle.manuscript.specs.Standing.{is_title};
ghost use Rattle.reader.specs.Reading.{line_of};
ghost use Rattle.typeset.specs.Items.{line_item};
ghost use Rattle.typeset.specs.Numbering.{Room, risen, counted, number_after_lem};

use manuscript::holds_title;
use numerals::{Counters, HeadingNumber};
use reader::{Line, level_of};

// The counters after a heading of a level: its own is one more, the later ones are 0.
fn risen_counters(level: usize, counters: Counters) -> Counters
    requires { Room counters 1 }
    ensures { result ≡ risen level counters }
{
    match level {
        1 => Counters {
            first: counters.first + 1,
            second: 0,
            third: 0,
        },
        2 => Counters {
            second: counters.second + 1,
            third: 0,
            ..counters
        },
        _ => Counters {
            third: counters.third + 1,
            ..counters
        },
    }
}

// The number of a heading of a level, after another number.
fn next_number(level: usize, number: HeadingNumber) -> HeadingNumber
    requires le_level { (1 ≤ level) × (level ≤ 3) }
    requires room { Room number.counters 1 }
    ensures { number_of result ≡ counted level (number_of number) }
{
    match HeadingNumber::new(level as u8, risen_counters(level, number.counters)) {
        Some(next) => next,
        None => unreachable(),
    }
}

// The number after a line that keeps the rules: a heading's own, which its words have too.
pub fn number_after(line: Line, number: HeadingNumber) -> HeadingNumber
    requires line_value { line_kept (line_of line) ≡ true }
    requires room { Room number.counters (if is_title line.bytes.now then 1 else 0) }
    ensures { number_of result ≡ number_after_lem (number_of number) (line_item (line_of line.entry)) }
{
    if !holds_title(line.bytes) {
        return number;
    }
    next_number(level_of(line.bytes), number)
}
