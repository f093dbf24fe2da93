//! The command that asks a live run how it stands.
ghost use Rattle.std.specs.Prelude.{◌≡◌, ◌⊎◌, IfErr, IfOk};
ghost use Rattle.std.specs.Io.KnownBytes.{Appends};
ghost use Rattle.sim.specs.Runs.{IsBegun};
ghost use Rattle.telegate.specs.Asking.{IsUnanswered, ShowsPage, ShowsStatus};

use crate::fault::Fault;
use crate::host::{Host, Unread};
use crate::performing::write_fault;
use status::{UNKNOWN, body_of, exit_status};
use std::io::Write;
use traces::print;

/// A request for the table.
const TABLE: &[u8] = b"GET /status.txt HTTP/1.0\r\n\r\n";

/// A request for the page that programs read.
const JSON: &[u8] = b"GET /status.json HTTP/1.0\r\n\r\n";

/// Asks a live run at its status listener how it stands, prints the table, or the page that
/// programs read, and answers the exit status that a monitor understands (Nagios). This is 0 ok, 1
/// warning or 2 critical, by the first word of the table. It is 3 if nothing is known, since nobody
/// answers, or not as this gateway does, or the output failed; and 4 if memory was refused.
pub(crate) fn ask_status<H: Host, W: Write, E: Write>(
    host: &H,
    place: &str,
    json: bool,
    out: &mut W,
    err: &mut E,
) -> u8
    ensures { ShowsStatus (H.answered host.now) (H.silent host.now) place.now json
        (W.contents out.old) (W.contents out.new) result }
{
    match ask(host, place, TABLE, err) {
        Ok(answer) => match body_of(answer.as_slice()) {
            Some(table) => {
                let status = exit_status(table);
                if json {
                    ask_json(host, place, status, out, err)
                } else {
                    print_page(table, status, out, err)
                }
            }
            None => write_unknown(place, err),
        },
        Err(status) => status,
    }
}

/// Prints the page that programs read.
fn ask_json<H: Host, W: Write, E: Write>(
    host: &H,
    place: &str,
    status: u8,
    out: &mut W,
    err: &mut E,
) -> u8
    ensures { ShowsPage (H.answered host.now) (H.silent host.now) place.now status
        (W.contents out.old) (W.contents out.new) result }
{
    match ask(host, place, JSON, err) {
        Ok(answer) => match body_of(answer.as_slice()) {
            Some(page) => print_page(page, status, out, err),
            None => write_unknown(place, err),
        },
        Err(status) => status,
    }
}

/// What is answered to a request, or the exit status if nothing is.
fn ask<H: Host, E: Write>(host: &H, place: &str, request: &[u8], err: &mut E) -> Result<Vec<u8>, u8>
    ensures answer { IfOk result (λ answer.
        H.answered host.now place.now request.now answer.items) }
    ensures none { IfErr result (IsUnanswered (H.silent host.now) place.now) }
{
    match host.ask(place, request) {
        Ok(answer) => Ok(answer),
        Err(Unread::Unreadable) => Err(write_unknown(place, err)),
        Err(Unread::NoMemory) => Err(write_fault(&Fault::NoMemory, err)),
    }
}

/// Writes that nobody answers as a live run does.
pub(crate) fn write_unknown<E: Write>(place: &str, err: &mut E) -> u8
    ensures { result ≡ 3 }
{
    let _ = writeln!(err, "no reply from {place}");
    UNKNOWN
}

/// Prints a page, and answers this exit status, if the output takes it.
fn print_page<W: Write, E: Write>(page: &[u8], status: u8, out: &mut W, err: &mut E) -> u8
    ensures { (Appends (W.contents out.old) (W.contents out.new) page.now × (result ≡ status))
        ⊎ (IsBegun (W.contents out.old) (W.contents out.new) page.now × (result ≡ 3)) }
{
    match print(page, out) {
        Ok(()) => status,
        Err(_) => write_fault(&Fault::Device, err),
    }
}
