//! The first line of a text.
ghost use Rattle.std.specs.Prelude.{◌≡◌, ◌≤◌, ◌∷◌, [], true, false, Some, IfOk, IfSome, OnSome};
ghost use Rattle.std.specs.Prelude.{is_some, length, option_map};
ghost use Rattle.std.specs.Option.{option_copied};
ghost use Rattle.gateway.specs.Entries.{FitsPort};
ghost use Rattle.gateway.specs.Ports.{FitsBuffer, logged_by};
ghost use Rattle.traces.specs.Event.{event_of, bare_event};
ghost use Rattle.traces.specs.Fields.{octets_of, parts_after};
ghost use Rattle.traces.specs.FirstLines.{IsFirstLine, IsEventAt, IsEventBehind, IsMomentAt};
ghost use Rattle.traces.specs.FirstLines.{IsValued, ends_field, first_line, later_lines, lines_in};
ghost use Rattle.traces.specs.FirstLines.{octets_in, rest_of, spelled_by, spelled_event};
ghost use Rattle.traces.specs.Progress.{came, logs_event};
ghost use Rattle.traces.specs.Trace.{is_skipped};

use crate::decimal::{decimal, front_number};
use crate::lines::cut;
use crate::octets::{octets_line, read_octets, write_line};
use crate::reading::LINE_FEED;
use gateway::{Entry, Next};
use std::alloc::{AllocError, Global};

/// An event as a line spells it, and what follows. If octets are spelled, that is the text from
/// them on. Whether they are right, and where their line ends, is seen as they are read. What
/// follows stands alike in each variant, `None` if nothing does, so that it stays in registers.
#[derive(Clone, Copy)]
pub(crate) enum Spelled<'a> {
    Line(u64, Option<&'a [u8]>),
    Open(u64, Option<&'a [u8]>),
    Bytes(u64, Option<&'a [u8]>),
    Cut(u64, Option<&'a [u8]>),
    Tick(u64, Option<&'a [u8]>),
    Wall(u64, Option<&'a [u8]>, u64),
}

/// The first line of a text, with the lines behind it.
#[derive(Clone, Copy)]
pub(crate) enum FirstLine<'a> {
    /// Empty, or a comment.
    Skipped(Option<&'a [u8]>),
    /// An event, if its octets are right.
    Event(Spelled<'a>),
    Wrong,
}

/// The first line of a text. The octets of an event aren't looked at.
#[inline(always)]
pub(crate) fn first_line(text: &[u8]) -> FirstLine<'_>
    ensures { IsFirstLine text.entry.now result }
{
    // Before anything is read of it: a comment may hold any octets (docs/DECISIONS.md, "Lines of
    // traces").
    if begins_skipped(text) {
        let (_, rest) = cut(text, LINE_FEED);
        return FirstLine::Skipped(rest);
    }
    match event_at(text) {
        Some(event) => FirstLine::Event(event),
        None => FirstLine::Wrong,
    }
}

/// Whether the first line of a text is empty or a comment.
fn begins_skipped(text: &[u8]) -> bool
    ensures { result ≡ is_skipped (first_line text.now) }
{
    match text {
        [] => true,
        [first, ..] => *first == LINE_FEED || *first == b'#',
    }
}

/// The event that the first line of a text spells. No field's end is looked for before it is read.
#[inline(always)]
fn event_at(text: &[u8]) -> Option<Spelled<'_>>
    ensures { IsEventAt text.entry.now result }
{
    let (now, behind) = moment(text)?;
    event_behind(now, behind)
}

/// The moment of the first line of a text, and what stands behind its space.
#[inline(always)]
fn moment(text: &[u8]) -> Option<(u64, &[u8])>
    ensures { IsMomentAt text.entry.now result }
{
    let (now, end) = front_number(text)?;
    if end < text.len() && text[end] == b' ' {
        Some((now, &text[end + 1..]))
    } else {
        None
    }
}

/// The event whose letter stands at the front of a text.
#[inline(always)]
fn event_behind(now: u64, text: &[u8]) -> Option<Spelled<'_>>
    ensures { IsEventBehind now text.entry.now result }
{
    match text {
        [kind] => bare(now, *kind, None),
        [kind, b'\n', rest @ ..] => bare(now, *kind, Some(rest)),
        [kind, b' ', text @ ..] => valued(now, *kind, text),
        // Also for a carriage return before the line feed (docs/DECISIONS.md, "Lines of traces").
        _ => None,
    }
}

/// An event without octets, and the lines behind it.
fn bare<'a>(now: u64, kind: u8, rest: Option<&'a [u8]>) -> Option<Spelled<'a>>
    ensures event { spelled_by result ≡ bare_event (kind ∷ []) now }
    ensures rest { IfSome result (λ event.
        rest_of event ≡ parts_after 10 (option_copied rest.entry)) }
    ensures letter { OnSome result (ends_field kind ≡ false) }
{
    match kind {
        b'T' => Some(Spelled::Tick(now, rest)),
        b'O' => Some(Spelled::Open(now, rest)),
        b'C' => Some(Spelled::Cut(now, rest)),
        _ => None,
    }
}

/// An event with octets or a number, which are the rest of the line: a space in it is no digit.
#[inline(always)]
fn valued(now: u64, kind: u8, text: &[u8]) -> Option<Spelled<'_>>
    ensures { IsValued now kind text.entry.now result }
{
    match kind {
        b'S' => Some(Spelled::Line(now, Some(text))),
        b'R' => Some(Spelled::Bytes(now, Some(text))),
        b'W' => {
            let (number, rest) = cut(text, LINE_FEED);
            Some(Spelled::Wall(now, rest, decimal(number)?))
        }
        _ => None,
    }
}

/// The lines behind an event, if its octets are right: they are judged, and not decoded.
#[inline(always)]
pub(crate) fn judged<'a>(event: &Spelled<'a>) -> Option<Option<&'a [u8]>>
    ensures right { is_some result ≡ is_some (spelled_event event.now) }
    ensures rest { IfSome result (λ rest.
        rest_of event.now ≡ parts_after 10 (option_copied rest)) }
{
    // No pattern has two variants: the event would have to stand in memory for it.
    let text = match event {
        Spelled::Line(_, text) => *text,
        Spelled::Bytes(_, text) => *text,
        Spelled::Open(_, rest) => return Some(*rest),
        Spelled::Cut(_, rest) => return Some(*rest),
        Spelled::Tick(_, rest) => return Some(*rest),
        Spelled::Wall(_, rest, _) => return Some(*rest),
    };
    let (_, rest) = octets_line(text?)?;
    Some(rest)
}

/// An event as a port gives it, and the lines behind it: its octets are put at the front of the
/// buffer. `None` if they are wrong; then the buffer may hold anything.
#[inline(always)]
pub(crate) fn announce<'a>(
    event: &Spelled<'a>,
    buf: &mut [u8; 1024],
) -> Option<(Next, Option<&'a [u8]>)>
    ensures right { is_some result ≡ is_some (spelled_event event.now) }
    ensures logged { IfSome result (λ found. IfSome (spelled_event event.now)
        (λ e. logged_by found.0 buf.new ≡ came e ∷ [])) }
    ensures rest { IfSome result (λ found.
        rest_of event.now ≡ parts_after 10 (option_copied found.1)) }
    ensures some { IfSome result (λ found. logs_event found.0 ≡ true) }
    ensures fits { IfSome result (λ found. FitsBuffer found.0) }
{
    match event {
        Spelled::Line(now, text) => {
            let (len, rest) = write_line((*text)?, buf)?;
            Some((Next::Line(*now, len), rest))
        }
        Spelled::Open(now, rest) => Some((Next::Open(*now), *rest)),
        Spelled::Bytes(now, text) => {
            let (len, rest) = write_line((*text)?, buf)?;
            Some((Next::Bytes(*now, len), rest))
        }
        Spelled::Cut(now, rest) => Some((Next::Cut(*now), *rest)),
        Spelled::Tick(now, rest) => Some((Next::Tick(*now), *rest)),
        Spelled::Wall(now, rest, number) => Some((Next::Wall(*now, *number), *rest)),
    }
}

/// The octets of a text's first line, and the lines behind it, if it has octets alone.
fn read_line<'a>(
    alloc: Global,
    text: Option<&'a [u8]>,
) -> Result<Option<(Vec<u8>, Option<&'a [u8]>)>, AllocError>
    ensures octets { IfOk result (λ found. option_map (λ both. both.0.items) found
        ≡ octets_in text.entry) }
    ensures rest { IfOk result (λ found. IfSome found (λ both.
        lines_in text.entry ≡ parts_after 10 (option_copied both.1))) }
    ensures most { IfOk result (λ found. IfSome found (λ both. length both.0.items ≤ 1024)) }
{
    let Some(text) = text else {
        return Ok(None);
    };
    let Some((digits, rest)) = octets_line(text) else {
        return Ok(None);
    };
    match read_octets(alloc, digits)? {
        Some(octets) => Ok(Some((octets, rest))),
        None => Ok(None),
    }
}

/// The entry that is spelled so, and the lines behind it, if its octets are right.
pub(crate) fn entry<'a>(
    alloc: Global,
    event: &Spelled<'a>,
) -> Result<Option<(Entry, Option<&'a [u8]>)>, AllocError>
    ensures event { IfOk result (λ found.
        option_map (λ both. event_of both.0) found ≡ spelled_event event.now) }
    ensures rest { IfOk result (λ found. IfSome found (λ both.
        rest_of event.now ≡ parts_after 10 (option_copied both.1))) }
    ensures fits { IfOk result (λ found. IfSome found (λ both. FitsPort both.0)) }
{
    match event {
        Spelled::Line(now, text) => match read_line(alloc, *text)? {
            Some((octets, rest)) => Ok(Some((Entry::Line(*now, octets), rest))),
            None => Ok(None),
        },
        Spelled::Open(now, rest) => Ok(Some((Entry::Open(*now), *rest))),
        Spelled::Bytes(now, text) => match read_line(alloc, *text)? {
            Some((octets, rest)) => Ok(Some((Entry::Bytes(*now, octets), rest))),
            None => Ok(None),
        },
        Spelled::Cut(now, rest) => Ok(Some((Entry::Cut(*now), *rest))),
        Spelled::Tick(now, rest) => Ok(Some((Entry::Tick(*now), *rest))),
        Spelled::Wall(now, rest, number) => Ok(Some((Entry::Wall(*now, *number), *rest))),
    }
}
