// Requests about numerals and record lines.
use crate::digits::encode;
use crate::unanswered::Unanswered;
use numerals::{NumeralStyle, page_text};
use pages::Page;
use recordlines::{load, save, saved_length};
use std::alloc::Global;

// The numeral of a page, by the letter's byte and the page.
pub fn numeral_line(heap: Global, code: &str, page: &str) -> Result<String, Unanswered> {
    let style = NumeralStyle::try_from(code.parse::<u8>()?)?;
    let page = Page::new(page.parse()?).ok_or(Unanswered::Unreadable)?;
    let text = encode(heap, page_text(style, page).as_slice())?;
    Ok(format!(in heap; "numeral {text}")?)
}

// The counts of a record that loads, and the lines that saving it writes.
pub fn load_line(heap: Global, bytes: &[u8]) -> Result<String, Unanswered> {
    let record = load(heap, bytes)?;
    let labels = record.table().label_count();
    let contents = record.table().contents_count();
    let mut lines = vec![in heap; 0; saved_length(record.table())]?;
    save(&record, &mut lines)?;
    let text = encode(heap, &lines)?;
    Ok(format!(in heap; "loaded {labels} {contents} {text}")?)
}
