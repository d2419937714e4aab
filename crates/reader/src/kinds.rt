// The kinds of line.
ghost use Rattle.std.specs.Prelude.{◌≡◌, ◌≤◌, length};
ghost use Rattle.reader.specs.Kinds.{kind, level, prose_start_lem};

use runs::{Byte, run_length};

#[derive(Clone, Copy, PartialEq, Eq, Debug)]
pub enum Kind {
    Heading,
    Directive,
    Remark,
    Text,
}

// The first character decides the kind of a line.
pub fn kind_of(line: &[u8]) -> Kind
    ensures { result ≡ kind line.now }
{
    let [first, ..] = line else {
        return Kind::Text;
    };
    match char::from(*first) {
        '#' => Kind::Heading,
        '!' => Kind::Directive,
        '%' => Kind::Remark,
        _ => Kind::Text,
    }
}

// How many '#' a line begins with.
pub fn level_of(line: &[u8]) -> usize
    ensures value { result ≡ level line.now }
    ensures bound { result ≤ length line.now }
{
    run_length::<Byte<b'#'>>(line)
}

// Where the words of a line begin: at its end where it has none to set.
pub fn prose_start(line: &[u8]) -> usize
    ensures { result ≡ prose_start_lem line.now }
{
    match kind_of(line) {
        Kind::Heading => level_of(line),
        Kind::Directive | Kind::Remark => line.len(),
        Kind::Text => 0,
    }
}
