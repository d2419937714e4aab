// What a frame does to the entries read so far.
ghost use Rattle.std.specs.Prelude.{◌≡◌, ◌&&◌, take, drop};
ghost use Rattle.record.specs.Records.{record_lists};
ghost use Rattle.recordlines.specs.Step.{step, position_from, name_sized, no_contents, label_kept, heading_kept, label_step, contents_step, end_step};
ghost use Rattle.recordlines.specs.Raw.{raw, raw_label, Does};

use crate::positions::{RawPosition, contents_entry, label_entry};
use faults::Cause;
use names::{NameError, named};
use record::Record;

// A frame that is in order: one more entry, or the end. Two named cases with nothing beside them, where an Option would say less.
#[derive(Clone, Copy)]
pub enum Told {
    Entry,
    End,
}

// A frame is told by its first bytes and the rest: slice patterns on them are the form that is asked for.
pub fn take_frame(entries: &mut Record, frame: &[u8]) -> Result<Told, Cause>
    ensures { Does (step (record_lists entries.old) frame.now) result (record_lists entries.old) (record_lists entries.new) }
{
    match frame {
        [0x4C, n, rest @ ..] => take_label(entries, *n, rest),
        [0x43, rest @ ..] => take_contents(entries, rest),
        [0x45, labels, contents] => take_end(entries, *labels, *contents),
        _ => Err(Cause::FrameMalformed),
    }
}

// The name has the first `n` bytes, the position the others.
fn take_label(entries: &mut Record, n: u8, rest: &[u8]) -> Result<Told, Cause>
    ensures { Does (label_step (record_lists entries.old) (take n rest.now) (position_from (drop n rest.now))) result (record_lists entries.old) (record_lists entries.new) }
{
    let (name, tail) = rest
        .split_at_checked(n as usize)
        .ok_or(Cause::FrameMalformed)?;
    take_named(entries, name, tail)
}

fn take_named(entries: &mut Record, name: &[u8], tail: &[u8]) -> Result<Told, Cause>
    ensures { Does (label_step (record_lists entries.old) name.now (position_from tail.now)) result (record_lists entries.old) (record_lists entries.new) }
{
    let position = RawPosition::try_from(tail)?;
    if !may_follow(entries, name) {
        return Err(Cause::FrameMalformed);
    }
    add_label(entries, name, position)
}

// Whether the name's length is right, and no contents frame came before.
#[tactic(auto, unfolding(crate::specs::Step::name_sized))]
fn may_follow(entries: &Record, name: &[u8]) -> bool
    ensures { result ≡ (name_sized name.now && no_contents (record_lists entries.now)) }
{
    match named(name) {
        Err(NameError::WrongLength) => false,
        _ => entries.table().contents_count() == 0,
    }
}

#[tactic(auto, unfolding(crate::specs::Step::label_fits))]
fn add_label(entries: &mut Record, name: &[u8], position: RawPosition) -> Result<Told, Cause>
    ensures { Does (label_kept (record_lists entries.old) (raw_label name.now position)) result (record_lists entries.old) (record_lists entries.new) }
{
    let entry = label_entry(name, position).ok_or(Cause::FrameInvalid)?;
    entries.add_label(entry).map_err(|_| Cause::FrameInvalid)?;
    Ok(Told::Entry)
}

fn take_contents(entries: &mut Record, tail: &[u8]) -> Result<Told, Cause>
    ensures { Does (contents_step (record_lists entries.old) (position_from tail.now)) result (record_lists entries.old) (record_lists entries.new) }
{
    let position = RawPosition::try_from(tail)?;
    add_contents(entries, position)
}

#[tactic(auto, unfolding(crate::specs::Step::heading_fits))]
fn add_contents(entries: &mut Record, position: RawPosition) -> Result<Told, Cause>
    ensures { Does (heading_kept (record_lists entries.old) (raw position)) result (record_lists entries.old) (record_lists entries.new) }
{
    let entry = contents_entry(position).ok_or(Cause::FrameInvalid)?;
    entries
        .add_contents(entry)
        .map_err(|_| Cause::FrameInvalid)?;
    Ok(Told::Entry)
}

fn take_end(entries: &Record, labels: u8, contents: u8) -> Result<Told, Cause>
    ensures { Does (end_step (record_lists entries.now) labels contents) result (record_lists entries.now) (record_lists entries.now) }
{
    let table = entries.table();
    if labels as usize != table.label_count() || contents as usize != table.contents_count() {
        return Err(Cause::FrameInvalid);
    }
    Ok(Told::End)
}
