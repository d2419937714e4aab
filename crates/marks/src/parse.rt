// Taking a word apart, each function handed what is left of the word.
ghost use Rattle.std.specs.Prelude.{◌≡◌, Some};
ghost use Rattle.std.specs.Option.{ok_or};
ghost use Rattle.faults.specs.declared.cause.Cause.TheVariants.{MarkMalformed};
ghost use Rattle.marks.specs.Parts.{plain, mark_of, standing, shut, marked, opened, parts};
ghost use Rattle.marks.specs.Values.{told};
ghost use Rattle.marks.specs.Whole.{Whole};

use crate::mark::{Mark, Marked};
use faults::Cause;
use names::named;
use runs::{Class, all_of, run_length};

// A byte that is no brace.
struct Plain;

impl Class for Plain {
    ghost test = { plain };

    fn has(b: u8) -> bool {
        b != b'{' && b != b'}'
    }
}

// The mark of a letter.
impl TryFrom<u8> for Mark {
    type Error = Cause;

    ghost try_from_gives = { λ letter r. r ≡ ok_or (mark_of letter) MarkMalformed };

    fn try_from(letter: u8) -> Result<Mark, Cause> {
        match letter {
            b'l' => Ok(Mark::Label),
            b'p' => Ok(Mark::Page),
            b'n' => Ok(Mark::Number),
            _ => Err(Cause::MarkMalformed),
        }
    }
}

// A mark whose letter and colon are read: whether in a title, and what stands before it.
#[derive(Clone, Copy)]
struct Opened<'a> {
    title: bool,
    mark: Mark,
    prefix: &'a [u8],
}

impl<'a> Opened<'a> {
    // Whether the mark may stand where it does: a label beside another byte, a reference outside a title.
    fn may_stand(self, around: usize) -> bool
        ensures { result ≡ standing self.entry.title self.entry.mark around }
    {
        match self.mark {
            Mark::Label => 0 < around,
            Mark::Page | Mark::Number => !self.title,
        }
    }

    // The whole mark with its name and the suffix.
    fn shut(self, name: &'a [u8], suffix: &'a [u8]) -> Result<Option<Marked<'a>>, Cause>
        ensures { told result ≡ shut self.entry.title self.entry.mark self.entry.prefix.now name.now suffix.now }
    {
        let Opened { mark, prefix, .. } = self;
        if named(name).is_err() || !all_of::<Plain>(suffix) {
            return Err(Cause::MarkMalformed);
        }
        let around = prefix.len() + suffix.len();
        if !self.may_stand(around) {
            return Err(Cause::MarkMalformed);
        }
        if around > 60 {
            return Err(Cause::MarkedWordTooLong);
        }
        Ok(Some(Marked {
            mark,
            prefix,
            name,
            suffix,
        }))
    }

    // What follows the colon.
    fn marked(self, more: &'a [u8]) -> Result<Option<Marked<'a>>, Cause>
        ensures { told result ≡ marked self.entry.title (Some self.entry.mark) self.entry.prefix.now more.now }
    {
        let (name, rest) = more.split_at(run_length::<Plain>(more));
        match rest {
            [b'}', suffix @ ..] => self.shut(name, suffix),
            _ => Err(Cause::MarkMalformed),
        }
    }
}

// What follows the prefix.
fn opened_parts<'a>(
    title: bool,
    prefix: &'a [u8],
    rest: &'a [u8],
) -> Result<Option<Marked<'a>>, Cause>
    ensures { told result ≡ opened title prefix.now rest.now }
{
    match rest {
        [] => Ok(None),
        [b'{', letter, b':', more @ ..] => {
            let mark = Mark::try_from(*letter)?;
            let opened = Opened {
                title,
                mark,
                prefix,
            };
            opened.marked(more)
        }
        _ => Err(Cause::MarkMalformed),
    }
}

// The parts of a word, in a title or outside one: none for a word without a mark.
#[tactic(auto, using(crate::proofs::Wholes::whole))]
pub fn parse_word<'a>(title: bool, word: &'a [u8]) -> Result<Option<Marked<'a>>, Cause>
    ensures value { told result ≡ parts title word.now }
    ensures joined { Whole word.now (told result) }
{
    let (prefix, rest) = word.split_at(run_length::<Plain>(word));
    opened_parts(title, prefix, rest)
}
