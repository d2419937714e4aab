// What a word is told to be when it is set.
ghost use Rattle.std.specs.Prelude.{◌≡◌, ◌+◌, ◌≤◌, length, Some, None};
ghost use Rattle.compose.specs.Acts.{part_of};
ghost use Rattle.marks.specs.Values.{value_of};
ghost use Rattle.record.specs.Naming.{name_bytes};
ghost use Rattle.typeset.specs.Items.{at_line_lem};
ghost use Rattle.typeset.specs.Manners.{manner_of};
ghost use Rattle.typeset.specs.Script.{part_in, source_in};

use crate::manner::Manner;
use compose::{Role, Source};
use marks::{Mark, Marked};
use record::Name;

// The role of a word with a mark. A copy in the contents is no more than that, so it moves no label.
pub fn marked_role(manner: Manner, marked: Marked, name: Name) -> Role
    requires { name_bytes name ≡ marked.name.now }
    ensures { part_of result ≡ part_in (manner_of manner) (Some (value_of marked.entry)) }
{
    let number = match manner {
        Manner::InPlace(number) => number,
        Manner::InContents(_) => return Role::Contents,
    };
    let before = marked.prefix.len() as u8;
    let after = marked.suffix.len() as u8;
    match marked.mark {
        Mark::Label => Role::Label(name, number),
        Mark::Page => Role::PageReference(name, before, after),
        Mark::Number => Role::NumberReference(name, before, after),
    }
}

// The role of a word without a mark.
pub fn plain_role(manner: Manner) -> Role
    ensures { part_of result ≡ part_in (manner_of manner) None }
{
    match manner {
        Manner::InPlace(_) => Role::Plain,
        Manner::InContents(_) => Role::Contents,
    }
}

// The name in a mark.
pub fn mark_name(marked: Marked) -> Name
    ensures { name_bytes result ≡ marked.entry.name.now }
{
    match Name::new(marked.name) {
        Some(name) => name,
        None => unreachable(),
    }
}

// Where a word without a name comes from.
pub fn at_line(line: usize) -> Source
    ensures { result ≡ at_line_lem line }
{
    Source { line, name: None }
}

// Where a fault says that a word comes from: a copy in the contents, from the line that asks for them.
pub fn source_in(manner: Manner, source: Source) -> Source
    ensures { result ≡ source_in (manner_of manner) source }
{
    match manner {
        Manner::InPlace(_) => source,
        Manner::InContents(line) => at_line(line),
    }
}
