// Requests that carry out the calls of a session.
use crate::answers::{add_answer, fault_line};
use crate::digits::{decode, encode};
use crate::named::{Job, on_layout};
use crate::unanswered::Unanswered;
use faults::Fault;
use layout::{Layout, Printing};
use manuscript::{Manuscript, bind};
use record::Record;
use recordlines::load;
use session::{Locked, Passed, Passing, Workspace, open};
use std::alloc::{AllocError, Global};
use std::str::FromStr;
use verdict::Verdict;

// A call that a request asks for. Data and no closures: a word of the request is read here, and carried out in one place below.
#[derive(Clone, Copy)]
enum Call {
    Pass,
    Verdict,
    Lock,
    Save(usize),
    Print,
}

impl FromStr for Call {
    type Err = Unanswered;

    fn from_str(text: &str) -> Result<Call, Unanswered> {
        match text {
            "p" => Ok(Call::Pass),
            "v" => Ok(Call::Verdict),
            "l" => Ok(Call::Lock),
            _ if text.starts_with("o:") => Ok(Call::Print),
            _ => {
                let length = text.strip_prefix("s:").ok_or(Unanswered::Unreadable)?;
                Ok(Call::Save(length.parse()?))
            }
        }
    }
}

// A session of either kind: neither is the failure of the other.
#[derive(Drop)]
enum Session {
    Open(Passing),
    Shut(Locked),
}

impl Session {
    fn verdict(&self) -> Verdict {
        match self {
            Session::Open(passing) => passing.verdict(),
            Session::Shut(locked) => locked.verdict(),
        }
    }

    fn save(&self, workspace: &Workspace, out: &mut [u8]) -> Result<usize, Fault> {
        match self {
            Session::Open(passing) => passing.save(workspace, out),
            Session::Shut(locked) => locked.save(workspace, out),
        }
    }
}

fn verdict_line(heap: Global, verdict: Verdict) -> Result<String, AllocError> {
    let kind = verdict.outcome().number();
    format!(in heap;
        "verdict {kind} {} {} {}",
        verdict.passes(),
        verdict.period(),
        verdict.since()
    )
}

// What was saved, with the whole buffer; or the fault, and whether a byte of the buffer changed.
fn saved_line(
    heap: Global,
    saved: Result<usize, Fault>,
    buffer: &[u8],
) -> Result<String, AllocError> {
    match saved {
        Ok(count) => {
            let bytes = encode(heap, buffer)?;
            format!(in heap; "saved {count} {bytes}")
        }
        Err(fault) => {
            let mut line = fault_line(heap, fault)?;
            let untouched = buffer.iter().all(|b| *b == b'U');
            line.push_str(if untouched { " kept" } else { " changed" })?;
            Ok(line)
        }
    }
}

fn lock(heap: Global, passing: Passing) -> Result<(Session, String), AllocError> {
    match passing.lock() {
        Ok(locked) => Ok((Session::Shut(locked), String::from_str(heap, "locked")?)),
        Err((fault, passing)) => Ok((Session::Open(passing), fault_line(heap, fault)?)),
    }
}

// What the calls of a session work on.
#[derive(Drop)]
struct Desk<'t, 'l, L> {
    heap: Global,
    text: Manuscript<'t>,
    layout: &'l mut L,
    workspace: Workspace,
}

impl<L: Layout> Desk<'_, '_, L> {
    fn pass(&mut self, passing: &mut Passing) -> Result<String, AllocError> {
        match passing.pass(self.text, self.layout, &mut self.workspace) {
            Ok(Passed { number, words }) => format!(in self.heap; "pass {number} {words}"),
            Err(fault) => fault_line(self.heap, fault),
        }
    }

    fn save(&self, session: &Session, length: usize) -> Result<String, AllocError> {
        let mut buffer = vec![in self.heap; b'U'; length]?;
        let saved = session.save(&self.workspace, &mut buffer);
        saved_line(self.heap, saved, &buffer)
    }

    // The answer to a call that leaves the session as it is.
    fn tell(&self, session: &Session, call: Call) -> Result<String, Unanswered> {
        match (session, call) {
            (_, Call::Verdict) => Ok(verdict_line(self.heap, session.verdict())?),
            (_, Call::Save(length)) => Ok(self.save(session, length)?),
            (Session::Shut(_), Call::Print) => Err(Unanswered::Unreadable),
            _ => Ok(String::from_str(self.heap, "absent")?),
        }
    }

    // The answer to a call, and the session that it leaves.
    fn answer(&mut self, session: Session, call: Call) -> Result<(Session, String), Unanswered> {
        match (session, call) {
            (Session::Open(mut passing), Call::Pass) => {
                let line = self.pass(&mut passing)?;
                Ok((Session::Open(passing), line))
            }
            (Session::Open(passing), Call::Lock) => Ok(lock(self.heap, passing)?),
            (session, call) => {
                let line = self.tell(&session, call)?;
                Ok((session, line))
            }
        }
    }
}

// The session that a request asks for.
#[derive(Clone, Copy)]
struct Asked<'a> {
    letter: u8,
    limit: usize,
    start: &'a [u8],
    text: &'a [u8],
    calls: &'a [&'a str],
}

impl Job for Asked<'_> {
    // The answers to all calls.
    fn run<P: Printing>(self, heap: Global, layout: &mut P) -> Result<String, Unanswered> {
        let start = start_record(heap, self.start)?;
        let mut workspace = Workspace::new(heap)?;
        let mut session = Session::Open(open(self.letter, self.limit, &start, &mut workspace)?);
        let mut desk = Desk {
            heap,
            text: bind(self.text),
            layout,
            workspace,
        };
        let mut line = String::new(heap);
        for call in self.calls {
            let (next, answer) = desk.answer(session, call.parse()?)?;
            session = next;
            add_answer(&mut line, " ; ", answer.as_str())?;
        }
        Ok(line)
    }
}

// The starting record: the empty one, or the one that lines load as.
fn start_record(heap: Global, lines: &[u8]) -> Result<Record, Unanswered> {
    if lines.is_empty() {
        return Ok(Record::empty(heap)?);
    }
    Ok(load(heap, lines)?)
}

// `session LAYOUT CODE LIMIT START TEXT CALL...`: the words after `session`.
pub fn session_line(heap: Global, words: &[&str]) -> Result<String, Unanswered> {
    let [layout, code, limit, start, text, calls @ ..] = words else {
        return Err(Unanswered::Unreadable);
    };
    // the numbers first: a request that has none is told from few bytes
    let letter = code.parse()?;
    let limit = limit.parse()?;
    let start = decode(heap, *start)?;
    let text = decode(heap, *text)?;
    let asked = Asked {
        letter,
        limit,
        start: &start,
        text: &text,
        calls,
    };
    on_layout(heap, *layout, asked)
}
