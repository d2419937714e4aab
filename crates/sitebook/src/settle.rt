// `sitebook settle`: passes until the verdict or the limit, a line for each, and then what is said of them.
use crate::book::Book;
use crate::failures::Failure;
use crate::read_text;
use layout::Layout;
use manuscript::{bind, check};
use record::Record;
use session::open;
use verdict::Verdict;

// The letter of the numerals, where there is just one, and the pass limit.
#[derive(Clone, Copy)]
pub(crate) struct Tries {
    letter: Option<u8>,
    limit: usize,
}

impl Tries {
    pub(crate) fn read(letter: &str, limit: &str) -> Result<Tries, Failure> {
        let letter = match letter.as_bytes() {
            [letter] => Some(*letter),
            _ => None,
        };
        Ok(Tries {
            letter,
            limit: limit.parse()?,
        })
    }
}

// Settles a text; a word that is refused ends it.
fn settle<L: Layout>(
    rt: &HostRuntime,
    tries: Tries,
    text: &[u8],
    layout: &mut L,
) -> Result<(), Failure> {
    check(text)?;
    let start = Record::empty(rt.alloc())?;
    let mut book = Book::new(rt)?;
    // no numerals have the letter 0: opening itself refuses what is not one letter
    let letter = tries.letter.unwrap_or(0);
    let mut passing = open(letter, tries.limit, &start, &mut book.workspace)?;
    let manuscript = bind(text);
    for _ in 0..tries.limit {
        let (passed, verdict) = passing.pass_and_judge(manuscript, layout, &mut book.workspace)?;
        book.print_pass(passed)?;
        book.keep_pages()?;
        if !matches!(verdict, Verdict::Open { .. }) {
            break;
        }
    }
    book.print_verdict(passing.verdict())
}

// Reads a text on standard input, and settles it on a layout.
pub(crate) fn settle_on<L: Layout + Drop>(
    rt: &HostRuntime,
    tries: Tries,
    mut layout: L,
) -> Result<(), Failure> {
    let text = read_text(rt)?;
    settle(rt, tries, &text, &mut layout).map_err(|failure| failure.naming(rt.alloc(), &text))
}
