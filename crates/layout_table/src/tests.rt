// Rows of steps and answers for the layouts.
use Step::{EndPage, EndParagraph, Rewind, Word};
use faults::Fault;
use layout::Printing;
use layouts::{FixedForm, LineFiller};
use std::process::Abort;
use std::test::Fail;

// Page, line and column, or the number of a refusal.
type Stands = Result<(u16, u8, u8), u8>;

// Rows of data, which closures would hide.
#[derive(Clone, Copy)]
enum Step {
    // a word of so many bytes, and where it comes to stand
    Word(usize, Stands),
    EndParagraph,
    EndPage,
    Rewind,
}

fn set<P: Printing>(layout: &mut P, length: usize) -> Stands {
    let text = [b'x'; 128];
    let mark = layout
        .set(&text[..length.min(128)])
        .map_err(|refusal| refusal.number())?;
    let (line, column) = layout.line_and_column(mark);
    Ok((layout.page(mark).number(), line, column))
}

fn play_row<P: Printing>(rt: &impl Abort, layout: &mut P, row: &[Step]) {
    for step in row {
        match *step {
            Word(length, stands) => assert_eq!(rt; set(layout, length), stands),
            EndParagraph => layout.end_paragraph(),
            EndPage => layout.end_page(),
            Rewind => layout.rewind(),
        }
    }
}

#[test]
fn long_words(rt: HostRuntime) -> Result<(), Fail> {
    let mut filler = LineFiller::new(120, 5)?;
    play_row(
        &rt,
        &mut filler,
        &[
            Word(2, Ok((1, 1, 1))),
            EndParagraph,
            Word(119, Err(14)),
            Word(65, Ok((1, 2, 1))),
            Word(1, Ok((1, 2, 67))),
            Word(2, Ok((1, 2, 69))),
            EndPage,
            EndPage,
            Word(119, Err(14)),
            Word(64, Ok((2, 1, 1))),
        ],
    );
    Ok(())
}

#[test]
fn three_lines(rt: HostRuntime) -> Result<(), Fail> {
    let mut filler = LineFiller::new(21, 3)?;
    play_row(
        &rt,
        &mut filler,
        &[
            Word(2, Ok((1, 1, 1))),
            Word(21, Ok((1, 2, 1))),
            Word(20, Ok((1, 3, 1))),
            Word(4, Ok((2, 1, 1))),
            Word(1, Ok((2, 1, 6))),
            Word(21, Ok((2, 2, 1))),
            Word(22, Err(14)),
            Word(1, Ok((2, 3, 1))),
            EndParagraph,
            Word(21, Ok((3, 1, 1))),
        ],
    );
    Ok(())
}

#[test]
fn two_lines(rt: HostRuntime) -> Result<(), Fail> {
    let mut filler = LineFiller::new(20, 2)?;
    play_row(
        &rt,
        &mut filler,
        &[
            Word(16, Ok((1, 1, 1))),
            EndParagraph,
            Word(1, Ok((1, 2, 1))),
            Word(1, Ok((1, 2, 3))),
            Word(2, Ok((1, 2, 5))),
            Word(1, Ok((1, 2, 8))),
            EndPage,
            Word(13, Ok((2, 1, 1))),
            Word(1, Ok((2, 1, 15))),
            Word(20, Ok((2, 2, 1))),
            Rewind,
            Word(1, Ok((1, 1, 1))),
            Word(5, Ok((1, 1, 3))),
            Word(19, Ok((1, 2, 1))),
            Word(19, Ok((2, 1, 1))),
            EndParagraph,
            Word(19, Ok((2, 2, 1))),
            EndParagraph,
            Word(1, Ok((3, 1, 1))),
            EndParagraph,
            EndParagraph,
            Word(3, Ok((3, 2, 1))),
            EndPage,
            Word(2, Ok((4, 1, 1))),
        ],
    );
    Ok(())
}

#[test]
fn eight_cells(rt: HostRuntime) -> Result<(), Fail> {
    let mut form = FixedForm::new(15, 8, 2)?;
    play_row(
        &rt,
        &mut form,
        &[
            Word(14, Ok((1, 1, 1))),
            Word(14, Ok((1, 1, 16))),
            Word(15, Ok((1, 1, 31))),
            EndParagraph,
            Word(15, Ok((1, 2, 1))),
            Word(15, Ok((1, 2, 16))),
            Word(1, Ok((1, 2, 31))),
            Word(15, Ok((1, 2, 46))),
            Word(1, Ok((1, 2, 61))),
            Word(15, Ok((1, 2, 76))),
            Word(14, Ok((1, 2, 91))),
            Word(2, Ok((1, 2, 106))),
            Word(14, Ok((2, 1, 1))),
            EndPage,
            EndParagraph,
            EndPage,
            Word(14, Ok((3, 1, 1))),
            Word(13, Ok((3, 1, 16))),
            EndPage,
            EndParagraph,
            Word(14, Ok((4, 1, 1))),
            EndPage,
            Word(14, Ok((5, 1, 1))),
            Word(15, Ok((5, 1, 16))),
            Word(3, Ok((5, 1, 31))),
            Word(15, Ok((5, 1, 46))),
            Word(1, Ok((5, 1, 61))),
            EndParagraph,
            EndPage,
            Word(1, Ok((6, 1, 1))),
        ],
    );
    Ok(())
}

#[test]
fn sixty_rows(rt: HostRuntime) -> Result<(), Fail> {
    let mut form = FixedForm::new(13, 5, 60)?;
    play_row(
        &rt,
        &mut form,
        &[
            EndParagraph,
            EndParagraph,
            Rewind,
            Word(2, Ok((1, 1, 1))),
            Rewind,
            Word(2, Ok((1, 1, 1))),
            Word(2, Ok((1, 1, 14))),
            Word(4, Ok((1, 1, 27))),
            EndPage,
            Word(1, Ok((2, 1, 1))),
            Word(5, Ok((2, 1, 14))),
            Word(12, Ok((2, 1, 27))),
            Word(8, Ok((2, 1, 40))),
            Word(12, Ok((2, 1, 53))),
            Word(7, Ok((2, 2, 1))),
            EndParagraph,
            EndPage,
            Word(2, Ok((3, 1, 1))),
            Word(1, Ok((3, 1, 14))),
            Word(13, Ok((3, 1, 27))),
            Word(2, Ok((3, 1, 40))),
            Word(13, Ok((3, 1, 53))),
            Word(13, Ok((3, 2, 1))),
            Word(7, Ok((3, 2, 14))),
            Word(73, Err(14)),
            Word(7, Ok((3, 2, 27))),
            EndPage,
            Word(13, Ok((4, 1, 1))),
            Word(7, Ok((4, 1, 14))),
            Word(12, Ok((4, 1, 27))),
        ],
    );
    Ok(())
}

// After page 999 there is no page, for words that fill theirs and for ended pages alike.
fn all_pages<P: Printing>(rt: &impl Abort, layout: &mut P) {
    for page in 1..1000 {
        assert_eq!(rt; set(layout, 1), Ok((page, 1, 1)));
        layout.end_page();
    }
    assert_eq!(rt; set(layout, 1), Err(15));
    assert_eq!(rt; set(layout, 73), Err(14));
    layout.rewind();
    assert_eq!(rt; set(layout, 1), Ok((1, 1, 1)));
}

#[test]
fn pages_used_up(rt: HostRuntime) -> Result<(), Fail> {
    let mut filler = LineFiller::new(20, 2)?;
    all_pages(&rt, &mut filler);
    let mut form = FixedForm::new(20, 1, 60)?;
    all_pages(&rt, &mut form);
    Ok(())
}

fn refused<L: Drop>(rt: &impl Abort, made: Result<L, Fault>) {
    assert_eq!(rt; made.err().map(|fault| fault.cause.number()), Some(16));
}

#[test]
fn settings_out_of_range(rt: HostRuntime) {
    refused(&rt, LineFiller::new(19, 1));
    refused(&rt, LineFiller::new(121, 1));
    refused(&rt, LineFiller::new(20, 0));
    refused(&rt, LineFiller::new(20, 91));
    refused(&rt, LineFiller::new(276, 257));
    refused(&rt, FixedForm::new(7, 3, 1));
    refused(&rt, FixedForm::new(41, 1, 1));
    refused(&rt, FixedForm::new(8, 2, 1));
    refused(&rt, FixedForm::new(16, 8, 1));
    refused(&rt, FixedForm::new(20, 1, 61));
    refused(&rt, FixedForm::new(40, 8, 1));
}
