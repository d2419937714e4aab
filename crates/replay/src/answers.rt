// The answer to a request.
ghost use Rattle.std.specs.Prelude.{◌≡◌, IfOk, string_bytes};
ghost use Rattle.replay.specs.Answers.{fault_line_lem, counts_line_lem, check_line_lem, added};

use crate::digits::decode;
use crate::named::on_layout;
use crate::records::{load_line, numeral_line};
use crate::sessions::session_line;
use crate::steps::Steps;
use crate::unanswered::Unanswered;
use faults::{Fault, Span};
use manuscript::{Counts, check};
use std::alloc::{AllocError, Global};

// What answers show where there is no name; they have 0 for no line too.
const NO_NAME: Span = Span {
    offset: 0,
    length: 0,
};

// Number, layer, line, the name's offset and length, and pass.
pub fn fault_line(heap: Global, fault: Fault) -> Result<String, AllocError>
    ensures { IfOk result (λ s. string_bytes s ≡ fault_line_lem fault) }
{
    let number = fault.cause.number();
    let layer = fault.cause.layer().number();
    let line = fault.line.unwrap_or(0);
    let Span { offset, length } = fault.name.unwrap_or(NO_NAME);
    let pass = fault.pass;
    format!(in heap; "fault {number} {layer} {line} {offset} {length} {pass}")
}

// Adds one answer of several to their line. One at a time and no `join` of all: a long request then takes the memory of its line alone.
pub(crate) fn add_answer(line: &mut String, separator: &str, answer: &str) -> Result<(), AllocError>
    ensures { IfOk result (λ _. string_bytes line.new ≡ added (string_bytes line.old) separator.now answer.now) }
{
    if !line.is_empty() {
        line.push_str(separator)?;
    }
    line.push_str(answer)
}

fn counts_line(heap: Global, counts: Counts) -> Result<String, AllocError>
    ensures { IfOk result (λ s. string_bytes s ≡ counts_line_lem counts) }
{
    let Counts {
        lines,
        labels,
        headings,
    } = counts;
    format!(in heap; "counts {lines} {labels} {headings}")
}

fn check_line(heap: Global, text: &[u8]) -> Result<String, AllocError>
    ensures { IfOk result (λ s. string_bytes s ≡ check_line_lem text.now) }
{
    match check(text) {
        Ok(counts) => counts_line(heap, counts),
        Err(fault) => fault_line(heap, fault),
    }
}

// The answer to a request that is carried out: a command, an argument, and what follows them.
fn reply(heap: Global, request: &str) -> Result<String, Unanswered> {
    let words: Vec<&str> = request.split(' ').collect(heap)?;
    let words: &[&str] = &words;
    match words {
        ["check", text, ..] => Ok(check_line(heap, &decode(heap, *text)?)?),
        ["load", lines, ..] => load_line(heap, &decode(heap, *lines)?),
        ["numeral", code, page] => numeral_line(heap, *code, *page),
        ["layout", layout, steps @ ..] => on_layout(heap, *layout, Steps(steps)),
        ["session", words @ ..] => session_line(heap, words),
        _ => Err(Unanswered::Unreadable),
    }
}

// The answer to one request line.
pub fn answer(heap: Global, request: &str) -> Result<String, AllocError> {
    match reply(heap, request) {
        Ok(line) => Ok(line),
        Err(Unanswered::Unreadable) => String::from_str(heap, "unreadable"),
        Err(Unanswered::Refused(fault)) => fault_line(heap, fault),
        Err(Unanswered::NoMemoryToLoad) => String::from_str(heap, "no memory"),
        Err(Unanswered::Memory(error)) => Err(error),
    }
}
