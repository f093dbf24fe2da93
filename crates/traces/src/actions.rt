//! The lines of actions.
ghost use Rattle.std.specs.Prelude.{◌≡◌, ◌+◌, ◌*◌, ◌++◌, IfSome, OnOk, OnErr, string_bytes};
ghost use Rattle.gateway.specs.Entries.{number_of};
ghost use Rattle.gateway.specs.Log.{Went, GapOut};
ghost use Rattle.gateway.specs.Ports.{output_of};
ghost use Rattle.hex.specs.Hex.{IsBytes};
ghost use Rattle.traces.specs.Actions.{line_of, octets_line, close_line, gap_line, stored_line};
ghost use Rattle.traces.specs.Printed.{IsPrintable, IsPrintableEntry};

use crate::moments::Moment;
use crate::octets::hex_digits;
use crate::page::Page;
use gateway::{Action, StoredEntry, cause_number};
use session::Close;
use std::alloc::{AllocError, Global};

/// Appends the line of a gap of a station, from 0.
fn append_gap(lines: &mut String, now: u64, station: usize, session: u64) -> Result<(), AllocError>
    ensures line { OnOk result (string_bytes lines.new ≡ string_bytes lines.old
        ++ gap_line now station session) }
    ensures printable { IsPrintable (Went now (GapOut station session)) }
{
    // Wide enough for one past the greatest index.
    let place = u128::from(station as u64) + 1;
    writeln!(lines, "{now} > G {place} {session}")
}

/// Prints the line of a close.
fn print_close(alloc: Global, page: &mut Page, now: u64, cause: Close) -> Result<(), AllocError>
    ensures line { OnOk result (page.new ≡ page.old
        ++ close_line now (number_of cause)) }
    ensures none { OnErr result (page.new ≡ page.old) }
{
    let mut line = String::new(alloc);
    let number = cause_number(cause);
    writeln!(line, "{now} > X {number}")?;
    page.put(line.as_bytes())
}

/// Prints the line of a gap of a station, from 0.
fn print_gap(
    alloc: Global,
    page: &mut Page,
    now: u64,
    station: usize,
    session: u64,
) -> Result<(), AllocError>
    ensures line { OnOk result (page.new ≡ page.old
        ++ gap_line now station session) }
    ensures none { OnErr result (page.new ≡ page.old) }
    ensures printable { IsPrintable (Went now (GapOut station session)) }
{
    let mut line = String::new(alloc);
    append_gap(&mut line, now, station, session)?;
    page.put(line.as_bytes())
}

/// Prints the line of an action on a page. An `Err` is want of memory; then nothing was printed.
pub fn print_action(
    alloc: Global,
    page: &mut Page,
    now: u64,
    action: &Action<'_>,
) -> Result<(), AllocError>
    ensures line { OnOk result (page.new ≡ page.old
        ++ line_of now (output_of action.now)) }
    ensures none { OnErr result (page.new ≡ page.old) }
    ensures printable { OnOk result (IsPrintable (Went now (output_of action.now))) }
{
    print_action_at(alloc, page, &Moment::new(now), action)
}

/// The same with a moment that is spelled already.
#[inline(always)]
pub fn print_action_at(
    alloc: Global,
    page: &mut Page,
    moment: &Moment,
    action: &Action<'_>,
) -> Result<(), AllocError>
    ensures line { OnOk result (page.new ≡ page.old
        ++ line_of moment.now (output_of action.now)) }
    ensures none { OnErr result (page.new ≡ page.old) }
    ensures printable { OnOk result (IsPrintable (Went moment.now (output_of action.now))) }
{
    let now = moment.number();
    match action {
        Action::Line(octets) => page.put_line(moment, b'S', *octets),
        Action::Tcp(octets) => page.put_line(moment, b'T', *octets),
        Action::Close(cause) => print_close(alloc, page, now, *cause),
        Action::Gap { station, session } => print_gap(alloc, page, now, *station, *session),
    }
}

/// Appends the line of an action that is stored; an event has none. An `Err` is want of memory.
pub fn append_line(
    alloc: Global,
    lines: &mut String,
    logged: &StoredEntry,
) -> Result<(), AllocError>
    ensures line { OnOk result (string_bytes lines.new ≡ string_bytes lines.old
        ++ stored_line logged.now) }
    ensures printable { OnOk result (IsPrintableEntry logged.now) }
{
    match logged {
        StoredEntry::Came(_) => Ok(()),
        StoredEntry::Line(now, octets) => {
            let now = *now;
            let digits = hex_digits(alloc, octets.as_slice())?;
            writeln!(lines, "{now} > S {digits}")
        }
        StoredEntry::Tcp(now, octets) => {
            let now = *now;
            let digits = hex_digits(alloc, octets.as_slice())?;
            writeln!(lines, "{now} > T {digits}")
        }
        StoredEntry::Close(now, cause) => {
            let now = *now;
            let number = cause_number(*cause);
            writeln!(lines, "{now} > X {number}")
        }
        StoredEntry::Gap(now, station, session) => append_gap(lines, *now, *station, *session),
    }
}
