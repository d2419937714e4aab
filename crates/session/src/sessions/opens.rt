// How a session begins.
ghost use Rattle.std.specs.Prelude.{◌≡◌, IfOk, Option};
ghost use Rattle.record.specs.Lists.{Lists};
ghost use Rattle.record.specs.Records.{record_lists};
ghost use Rattle.session.specs.Desk.{desk_of, both};
ghost use Rattle.session.specs.Opening.{OpenStep, LeadsOff};
ghost use Rattle.session.specs.Taking.{LeadsTo};

use super::Passing;
use crate::numbers::Numbers;
use crate::workspace::Workspace;
use faults::{Cause, Fault};
use numerals::NumeralStyle;
use record::Record;
use verdict::Progress;

// Every run from the starting record leads to what opening leaves.
fn leads_off()
    ensures { LeadsOff }
{}

// Makes both records of a workspace the same as this one.
fn lay_out(start: &Record, workspace: &mut Workspace)
    ensures { desk_of workspace.new ≡ both (record_lists start.now) }
{
    let table = start.table();
    workspace.current.copy_from(table);
    workspace.anchor.copy_from(table);
}

// `open` without its law, which is proved over the step as one fact.
fn begin(
    letter: u8,
    limit: usize,
    start: &Record,
    workspace: &mut Workspace,
) -> Result<Passing, Fault>
    ensures { OpenStep letter limit (record_lists start.now) (desk_of workspace.old) result (desk_of workspace.new) }
{
    let (Ok(style), Ok(limit @ 1..)) = (NumeralStyle::try_from(letter), u8::try_from(limit)) else {
        return Err(Fault::plain(Cause::SessionSettings));
    };
    lay_out(start, workspace);
    let numbers = Numbers {
        style,
        limit,
        progress: Progress::new(),
    };
    Ok(Passing { numbers })
}

// Opens a session that starts from a record; `d` or `r` is the letter of its numerals, and it makes 1 to 255 passes at most.
pub fn open(
    letter: u8,
    limit: usize,
    start: &Record,
    workspace: &mut Workspace,
) -> Result<Passing, Fault>
    ensures step { OpenStep letter limit (record_lists start.now) (desk_of workspace.old) result (desk_of workspace.new) }
    ensures begun { IfOk result (λ s. (f : Lists → Option Lists) → LeadsTo f (record_lists start.now) s.numbers.progress (desk_of workspace.new)) }
{
    leads_off();
    begin(letter, limit, start, workspace)
}
