//! The lines of a record, or of a trace.
ghost use Rattle.std.specs.Prelude.{◌≡◌, ◌==◌, ◌∷◌, codes, option_map, IfOk, IfSome};
ghost use Rattle.std.specs.List.{slice_split};
ghost use Rattle.std.specs.Option.{option_copied};
ghost use Rattle.gateway.specs.Entries.{logged_of};
ghost use Rattle.traces.specs.Event.{bare_in, event_from, valued_in};
ghost use Rattle.traces.specs.Fields.{decimal_of, parts_after};
ghost use Rattle.traces.specs.Printed.{cause_numbered, went_at};
ghost use Rattle.traces.specs.Progress.{came};
ghost use Rattle.record.specs.Entries.{FitsPacket};
ghost use Rattle.record.specs.Recorded.{action_by, action_from, entry_from};

use gateway::{Entry, StoredEntry};
use session::Close;
use std::alloc::{AllocError, Global};
use traces::{cut, read_decimal, read_octets};

/// What a line logs, which is neither empty nor a comment. `None` if it is neither an event nor an
/// action; an `Err` is want of memory.
pub(crate) fn read_entry(alloc: Global, line: &[u8]) -> Result<Option<StoredEntry>, AllocError>
    ensures logged { IfOk result (λ logged. option_map logged_of logged
        ≡ entry_from (slice_split (λ b. b == 32) line.now)) }
    ensures fits { IfOk result (λ logged. IfSome logged FitsPacket) }
{
    let (moment, rest) = cut(line, b' ');
    let Some(rest) = rest else {
        return Ok(None);
    };
    let (second, rest) = cut(rest, b' ');
    if second == b">".as_slice() {
        action(alloc, moment, rest)
    } else {
        event(alloc, moment, second, rest)
    }
}

/// The event of a moment, a kind and the fields behind them.
fn event(
    alloc: Global,
    moment: &[u8],
    kind: &[u8],
    rest: Option<&[u8]>,
) -> Result<Option<StoredEntry>, AllocError>
    ensures logged { IfOk result (λ logged. option_map logged_of logged
        ≡ option_map came (event_from (moment.now ∷ kind.now
        ∷ parts_after 32 (option_copied rest.entry)))) }
    ensures fits { IfOk result (λ logged. IfSome logged FitsPacket) }
{
    let Some(rest) = rest else {
        return Ok(bare(moment, kind));
    };
    match cut(rest, b' ') {
        (text, None) => valued(alloc, moment, kind, text),
        (_, Some(rest)) => {
            // There are four fields at least.
            let _ = cut(rest, b' ');
            Ok(None)
        }
    }
}

/// An event without octets.
fn bare(moment: &[u8], kind: &[u8]) -> Option<StoredEntry>
    ensures logged { option_map logged_of result ≡ option_map came (bare_in moment.now kind.now) }
    ensures fits { IfSome result FitsPacket }
{
    let now = read_decimal(moment)?;
    if kind == b"T".as_slice() {
        Some(StoredEntry::Came(Entry::Tick(now)))
    } else if kind == b"O".as_slice() {
        Some(StoredEntry::Came(Entry::Open(now)))
    } else if kind == b"C".as_slice() {
        Some(StoredEntry::Came(Entry::Cut(now)))
    } else {
        None
    }
}

/// An event with octets, or with the number of the wall clock.
fn valued(
    alloc: Global,
    moment: &[u8],
    kind: &[u8],
    text: &[u8],
) -> Result<Option<StoredEntry>, AllocError>
    ensures logged { IfOk result (λ logged. option_map logged_of logged
        ≡ option_map came (valued_in moment.now kind.now text.now)) }
    ensures fits { IfOk result (λ logged. IfSome logged FitsPacket) }
{
    if kind == b"W".as_slice() {
        return Ok(wall(moment, text));
    }
    let Some(octets) = read_octets(alloc, text)? else {
        return Ok(None);
    };
    let Some(now) = read_decimal(moment) else {
        return Ok(None);
    };
    if kind == b"S".as_slice() {
        Ok(Some(StoredEntry::Came(Entry::Line(now, octets))))
    } else if kind == b"R".as_slice() {
        Ok(Some(StoredEntry::Came(Entry::Bytes(now, octets))))
    } else {
        Ok(None)
    }
}

/// The wall clock shows a number.
fn wall(moment: &[u8], text: &[u8]) -> Option<StoredEntry>
    ensures logged { option_map logged_of result
        ≡ option_map came (valued_in moment.now (codes "W") text.now) }
    ensures fits { IfSome result FitsPacket }
{
    let now = read_decimal(moment)?;
    let number = read_decimal(text)?;
    Some(StoredEntry::Came(Entry::Wall(now, number)))
}

/// The action of the fields behind the mark.
fn action(
    alloc: Global,
    moment: &[u8],
    rest: Option<&[u8]>,
) -> Result<Option<StoredEntry>, AllocError>
    ensures logged { IfOk result (λ logged. option_map logged_of logged
        ≡ went_at (decimal_of moment.now)
        (action_from (parts_after 32 (option_copied rest.entry)))) }
    ensures fits { IfOk result (λ logged. IfSome logged FitsPacket) }
{
    let Some(now) = read_decimal(moment) else {
        return Ok(None);
    };
    let Some(rest) = rest else {
        return Ok(None);
    };
    let (kind, rest) = cut(rest, b' ');
    let Some(rest) = rest else {
        return Ok(None);
    };
    let (text, rest) = cut(rest, b' ');
    match rest {
        None => sent(alloc, now, kind, text),
        Some(rest) => Ok(gap(now, kind, text, rest)),
    }
}

/// A request, an APDU or a close.
fn sent(
    alloc: Global,
    now: u64,
    kind: &[u8],
    text: &[u8],
) -> Result<Option<StoredEntry>, AllocError>
    ensures logged { IfOk result (λ logged. option_map logged_of logged
        ≡ went_at (Some now) (action_by kind.now text.now)) }
    ensures fits { IfOk result (λ logged. IfSome logged FitsPacket) }
{
    if kind == b"X".as_slice() {
        return Ok(close(now, text));
    }
    let Some(octets) = read_octets(alloc, text)? else {
        return Ok(None);
    };
    if kind == b"S".as_slice() {
        Ok(Some(StoredEntry::Line(now, octets)))
    } else if kind == b"T".as_slice() {
        Ok(Some(StoredEntry::Tcp(now, octets)))
    } else {
        Ok(None)
    }
}

/// A close, with the number of its cause.
fn close(now: u64, text: &[u8]) -> Option<StoredEntry>
    ensures logged { option_map logged_of result
        ≡ went_at (Some now) (action_by (codes "X") text.now) }
    ensures fits { IfSome result FitsPacket }
{
    let number = read_decimal(text)?;
    let cause = cause_of(number)?;
    Some(StoredEntry::Close(now, cause))
}

/// The cause with this number.
fn cause_of(number: u64) -> Option<Close>
    ensures { result ≡ cause_numbered number }
{
    match number {
        1 => Some(Close::Grammar),
        2 => Some(Close::SendNumber),
        3 => Some(Close::ReceiveNumber),
        4 => Some(Close::Stopped),
        5 => Some(Close::Timeout),
        6 => Some(Close::OwnAnswers),
        7 => Some(Close::Replaced),
        _ => None,
    }
}

/// A gap of a station, which is counted from 1.
fn gap(now: u64, kind: &[u8], station: &[u8], rest: &[u8]) -> Option<StoredEntry>
    ensures logged { option_map logged_of result ≡ went_at (Some now)
        (action_from (kind.now ∷ station.now ∷ slice_split (λ b. b == 32) rest.now)) }
    ensures fits { IfSome result FitsPacket }
{
    let (session, rest) = cut(rest, b' ');
    if let Some(rest) = rest {
        // There are four fields behind the mark at least.
        let _ = cut(rest, b' ');
        return None;
    }
    if kind != b"G".as_slice() {
        return None;
    }
    let place = read_decimal(station)?;
    let session = read_decimal(session)?;
    let station = place.checked_sub(1)?;
    Some(StoredEntry::Gap(now, station as usize, session))
}
