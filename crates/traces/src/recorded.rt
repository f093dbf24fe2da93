//! The lines of events, as a recorded run has them.
ghost use Rattle.std.specs.Prelude.{◌≡◌, ◌++◌, OnErr, OnOk, string_bytes};
ghost use Rattle.gateway.specs.Ports.{FitsBuffer, logged_by};
ghost use Rattle.std.specs.List.{AllByRecursion};
ghost use Rattle.traces.specs.Printed.{IsPrintable, lines_of_log};

use crate::moments::Moment;
use crate::octets::hex_digits;
use crate::page::Page;
use gateway::Next;
use std::alloc::{AllocError, Global};

/// Appends the line of the event that a port answers, as a trace has it; `Done` and `Fault` have
/// none. The octets of the event are the front of the buffer. An `Err` is want of memory.
pub fn append_event(
    alloc: Global,
    lines: &mut String,
    next: Next,
    buf: &[u8; 1024],
) -> Result<(), AllocError>
    requires { FitsBuffer next }
    ensures line { OnOk result (string_bytes lines.new
        ≡ string_bytes lines.old ++ lines_of_log (logged_by next buf.now)) }
    ensures printable { OnOk result (AllByRecursion IsPrintable (logged_by next buf.now)) }
{
    match next {
        Next::Line(now, len) => {
            let digits = hex_digits(alloc, &buf[..len])?;
            writeln!(lines, "{now} S {digits}")
        }
        Next::Open(now) => writeln!(lines, "{now} O"),
        Next::Bytes(now, len) => {
            let digits = hex_digits(alloc, &buf[..len])?;
            writeln!(lines, "{now} R {digits}")
        }
        Next::Cut(now) => writeln!(lines, "{now} C"),
        Next::Tick(now) => writeln!(lines, "{now} T"),
        Next::Wall(now, number) => writeln!(lines, "{now} W {number}"),
        Next::Done | Next::Fault => Ok(()),
    }
}

/// Prints the same line on a page. An `Err` is want of memory; then nothing was printed.
pub fn print_event(
    alloc: Global,
    page: &mut Page,
    next: Next,
    buf: &[u8; 1024],
) -> Result<(), AllocError>
    requires { FitsBuffer next }
    ensures line { OnOk result (page.new ≡ page.old ++ lines_of_log (logged_by next buf.now)) }
    ensures none { OnErr result (page.new ≡ page.old) }
    ensures printable { OnOk result (AllByRecursion IsPrintable (logged_by next buf.now)) }
{
    match next {
        Next::Line(now, len) => page.put_event(&Moment::new(now), b'S', &buf[..len]),
        Next::Bytes(now, len) => page.put_event(&Moment::new(now), b'R', &buf[..len]),
        _ => print_appended(alloc, page, next, buf),
    }
}

/// The same by way of a text, as for the few events that have no octets.
fn print_appended(
    alloc: Global,
    page: &mut Page,
    next: Next,
    buf: &[u8; 1024],
) -> Result<(), AllocError>
    requires { FitsBuffer next }
    ensures line { OnOk result (page.new ≡ page.old ++ lines_of_log (logged_by next buf.now)) }
    ensures none { OnErr result (page.new ≡ page.old) }
    ensures printable { OnOk result (AllByRecursion IsPrintable (logged_by next buf.now)) }
{
    let mut line = String::new(alloc);
    append_event(alloc, &mut line, next, buf)?;
    page.put(line.as_bytes())
}
