// Requests that set words on a layout, step by step.
use crate::answers::add_answer;
use crate::digits::decode;
use crate::named::Job;
use crate::unanswered::Unanswered;
use layout::Printing;
use std::alloc::{AllocError, Global};

// The steps that a request asks for.
#[derive(Clone, Copy)]
pub struct Steps<'a>(pub &'a [&'a str]);

impl Job for Steps<'_> {
    // The answers to all steps.
    fn run<P: Printing>(self, heap: Global, layout: &mut P) -> Result<String, Unanswered> {
        if self.0.is_empty() {
            return Ok(String::from_str(heap, "-")?);
        }
        let mut line = String::new(heap);
        for step in self.0 {
            let answer = answer_step(heap, layout, *step)?;
            add_answer(&mut line, " ", answer.as_str())?;
        }
        Ok(line)
    }
}

// The answer to one step. A match and no closures: the word that a request has for a step is read here and nowhere else.
fn answer_step<P: Printing>(
    heap: Global,
    layout: &mut P,
    step: &str,
) -> Result<String, Unanswered> {
    match step {
        "e" => layout.end_paragraph(),
        "n" => layout.end_page(),
        "z" => layout.rewind(),
        _ => {
            let digits = step.strip_prefix("w:").ok_or(Unanswered::Unreadable)?;
            let word = decode(heap, digits)?;
            return Ok(set_word(heap, layout, &word)?);
        }
    }
    Ok(String::from_str(heap, "-")?)
}

// Page, line and column of a word that is set, or the number of its refusal.
fn set_word<P: Printing>(heap: Global, layout: &mut P, word: &[u8]) -> Result<String, AllocError> {
    match layout.set(word) {
        Ok(mark) => {
            let page = layout.page(mark).number();
            let (line, column) = layout.line_and_column(mark);
            format!(in heap; "{page}.{line}.{column}")
        }
        Err(refusal) => format!(in heap; "{}", refusal.number()),
    }
}
