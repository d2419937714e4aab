// Loading a record from its lines.
ghost use Rattle.std.specs.Prelude.{◌≡◌, ◌<◌, not, [], ◌∷◌, length, IfOk, MatchOption, ◌==◌};
ghost use Rattle.record.specs.Records.{record_lists};
ghost use Rattle.recordlines.specs.Frame.{lines};
ghost use Rattle.recordlines.specs.Step.{line_step};
ghost use Rattle.recordlines.specs.Raw.{Does};
ghost use Rattle.recordlines.specs.Load.{split, Loads};

use crate::decode::decode;
use crate::error::LoadError;
use crate::lines::Lines;
use crate::steps::{Told, take_frame};
use faults::{Cause, Fault};
use record::Record;
use std::alloc::Global;

// What a line does to the entries read so far.
#[tactic(auto, unfolding(crate::specs::Step::line_step))]
fn take_line(entries: &mut Record, digits: &[u8]) -> Result<Told, Cause>
    ensures { Does (line_step (record_lists entries.old) digits.now) result (record_lists entries.old) (record_lists entries.new) }
{
    let frame = decode(digits).ok_or(Cause::FrameMalformed)?;
    take_frame(entries, &frame)
}

// The record that the lines hold, or the fault of the first bad line. Lines that load are what saving the record writes.
pub fn load(heap: Global, bytes: &[u8]) -> Result<Record, LoadError>
    ensures value { Loads bytes.now result }
    ensures saves { IfOk result (λ x. lines (record_lists x) ≡ bytes.now) }
{
    let mut entries = Record::empty(heap)?;
    let mut lines = Lines::of(bytes);
    // no `for`: what is left of the lines is wanted after the end frame
    while let Some(line) = lines.next() {
        let in_line = |cause| Fault::in_line(cause, line.number);
        let told = take_line(&mut entries, line.digits).map_err(in_line)?;
        if let Told::End = told {
            if lines.rest.is_empty() {
                return Ok(entries);
            }
            break;
        }
    }
    Err(LoadError::Refused(Fault::in_line(Cause::FrameMalformed, lines.number)))
}
