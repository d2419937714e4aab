// Saving a record as lines.
ghost use Rattle.std.specs.Prelude.{◌≡◌, ◌+◌, ◌*◌, ◌^◌, ◌<◌, ◌≤◌, length};
ghost use Rattle.std.specs.List.{flat_map};
ghost use Rattle.buffers.specs.Written.{written};
ghost use Rattle.record.specs.Lists.{lists_of};
ghost use Rattle.record.specs.Records.{record_lists};
ghost use Rattle.recordlines.specs.Frame.{line, lines};
ghost use Rattle.recordlines.specs.Save.{Saves, LoadsAgain};

use crate::frames::{Framed, end_frame};
use crate::writes::line_of;
use buffers::write;
use faults::{Cause, Fault};
use record::{Record, Table};

// How many bytes the lines of the entries have. A loop, as the bound of a chain's `sum` did not prove.
fn lines_length<E: Framed>(entries: &[E]) -> usize
    requires { length entries.now ≤ 128 }
    ensures value { result ≡ length (flat_map (λ e. line (E.Framed.frame e)) entries.now) }
    ensures bound { result ≤ 49 * 128 }
{
    let mut total = 0;
    for entry in entries {
        total += 2 * entry.frame_length() + 1;
    }
    total
}

// Writes the lines of the entries, for which there is room, and answers their end. The buffer is the caller's, and no memory is taken
// here, so the place in it stays a number beside it.
fn write_lines<E: Framed>(entries: &[E], out: &mut [u8], at: usize) -> usize
    requires { at + length (flat_map (λ e. line (E.Framed.frame e)) entries.now) ≤ length out.old }
    ensures end { result ≡ at + length (flat_map (λ e. line (E.Framed.frame e)) entries.now) }
    ensures after { out.new ≡ written out.old at (flat_map (λ e. line (E.Framed.frame e)) entries.now) }
{
    let mut end = at;
    for entry in entries {
        end = write(out, end, &line_of(&entry.frame()));
    }
    end
}

// How many bytes the entries of a table take; the line of the end frame comes besides.
fn entries_length(table: &Table) -> usize
    ensures value { result + 7 ≡ length (lines (lists_of table.now)) }
    ensures bound { result < 2 ^ 32 }
{
    lines_length(table.labels()) + lines_length(table.contents())
}

// How many bytes saving writes.
pub fn saved_length(table: &Table) -> usize
    ensures value { result ≡ length (lines (lists_of table.now)) }
{
    entries_length(table) + 7
}

// Writes the lines of a table at the front of the buffer and answers their count, or changes nothing where it is too short.
pub fn save_table(table: &Table, out: &mut [u8]) -> Result<usize, Fault>
    ensures { Saves (lists_of table.now) out.old result out.new }
{
    if saved_length(table) > out.len() {
        return Err(Fault::plain(Cause::BufferTooShort));
    }
    let end = write_lines(table.labels(), out, 0);
    let end = write_lines(table.contents(), out, end);
    Ok(write(out, end, &line_of(&end_frame(table))))
}

// Saves a record. What is written loads as the same record.
pub fn save(saved: &Record, out: &mut [u8]) -> Result<usize, Fault>
    ensures value { Saves (record_lists saved.now) out.old result out.new }
    ensures loads { LoadsAgain (record_lists saved.now) }
{
    save_table(saved.table(), out)
}
