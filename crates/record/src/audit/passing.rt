//! The lines of a record, passed one after another.
ghost use Rattle.std.specs.List.{slice_split};
ghost use Rattle.std.specs.Option.{option_copied};
ghost use Rattle.std.specs.Prelude.{◌≡◌, ◌==◌, Some, false, true};
ghost use Rattle.traces.specs.Fields.{parts_after};
ghost use Rattle.record.specs.Passing.{IsKind, IsLineJudged, IsNext, IsOneLine, IsTally};
ghost use Rattle.record.specs.Passing.{IsWrongAmong};
ghost use Rattle.record.specs.Lines.{event_line, is_action, is_cut, is_marked, leaves_out};
ghost use Rattle.record.specs.Lines.{whole_lines};

use gateway::Next;
use memchr::{memchr, memrchr};
use traces::{TextFault, cut, first_event, judge};

pub(crate) const LINE_FEED: u8 = b'\n';

/// The lines of a block: all of them, or, if the block is the end of a text, those that a line feed
/// ends.
pub fn part_of(block: &[u8], is_last: bool) -> Option<&[u8]>
    ensures last { is_last ≡ true →
        parts_after 10 (option_copied result) ≡ whole_lines block.entry.now }
    ensures other { is_last ≡ false → option_copied result ≡ Some block.entry.now }
{
    if !is_last {
        return Some(block);
    }
    // A process that is killed leaves half a line (docs/DECISIONS.md, "A record may end anywhere").
    match memrchr(LINE_FEED, block) {
        Some(end) => Some(&block[..end]),
        None => None,
    }
}

/// How many lines were passed, and how many of them log an event or an action.
#[derive(Clone, Copy)]
pub(crate) struct LineCounts {
    pub(crate) lines: u64,
    pub(crate) events: u64,
    pub(crate) actions: u64,
}

/// What a line logs.
#[derive(Clone, Copy)]
enum LineKind {
    /// An event, as a port gives it: its octets are the front of a buffer.
    Event(Next),
    Action,
    /// It is empty, a comment, or was cut short.
    Neither,
    Wrong,
}

/// Whether a line was cut short: it has the mark with which such a line is ended.
pub(crate) fn is_cut(line: &[u8]) -> bool
    ensures { result ≡ is_cut line.now }
{
    // Half an event can't be completed (docs/DECISIONS.md, "A line with `!`").
    memchr(b'!', line).is_some()
}

/// Whether the second field of a line is `>`.
fn is_marked(line: &[u8]) -> bool
    ensures { result ≡ is_marked (slice_split (λ b. b == 32) line.now) }
{
    match cut(line, b' ') {
        (_, None) => false,
        (_, Some(behind)) => {
            let (second, _) = cut(behind, b' ');
            second == b">".as_slice()
        }
    }
}

/// Whether a line says that others are left out there.
pub(crate) fn leaves_out(line: &[u8]) -> bool
    ensures { result ≡ leaves_out line.now }
{
    line.starts_with(b"# left out: ")
}

/// Whether a line logs an action, and no event.
pub fn is_action(line: &[u8]) -> bool
    ensures { result ≡ is_action line.now }
{
    !is_cut(line) && is_marked(line)
}

/// A line as that of an event: an empty one in the place of an action, and of a line that was cut
/// short.
pub fn event_line(line: &[u8]) -> &[u8]
    ensures { result.now ≡ event_line line.entry.now }
{
    if is_cut(line) || is_marked(line) {
        return b"".as_slice();
    }
    line
}

/// What a line logs. The octets of an event are put at the front of the buffer.
fn kind_of(line: &[u8], buf: &mut [u8; 1024]) -> LineKind
    requires { IsOneLine line.now }
    ensures { IsKind line.now buf.new result }
{
    if is_cut(line) {
        return LineKind::Neither;
    }
    if is_marked(line) {
        return LineKind::Action;
    }
    let (next, _) = first_event(Some(line), buf);
    match next {
        Next::Done => LineKind::Neither,
        Next::Fault => LineKind::Wrong,
        next => LineKind::Event(next),
    }
}

/// Judges a line. It is wrong if it logs neither an event nor an action, though it is neither empty
/// nor a comment, and wasn't cut short.
fn judge_line(line: &[u8]) -> Result<(), TextFault>
    requires { IsOneLine line.now }
    ensures { IsLineJudged line.now result }
{
    if is_cut(line) || is_marked(line) {
        return Ok(());
    }
    judge(line, 1)?;
    Ok(())
}

/// The first wrong one of these lines, of which the first has this number; or `NoMemory`, if none
/// is.
pub(crate) fn fault_among(lines: Option<&[u8]>, first: u64) -> TextFault
    ensures { IsWrongAmong first (parts_after 10 (option_copied lines.entry)) result }
{
    let mut left = lines;
    'judging: for number in first..u64::MAX {
        let Some(text) = left else {
            return TextFault::NoMemory;
        };
        let (line, rest) = cut(text, LINE_FEED);
        match judge_line(line) {
            Ok(()) => left = rest,
            Err(TextFault::Line(_)) => return TextFault::Line(number),
            Err(TextFault::NoMemory) => return TextFault::NoMemory,
        }
    }
    TextFault::NoMemory
}

/// The first event of these lines, whose octets are put at the front of the buffer, or `Done`; the
/// lines behind it, and how many were passed then. `Fault` if a line before it is wrong; then none
/// counts as passed.
pub(crate) fn next_event<'a>(
    lines: Option<&'a [u8]>,
    before: LineCounts,
    buf: &mut [u8; 1024],
) -> (Next, Option<&'a [u8]>, LineCounts)
    requires { IsTally before }
    ensures { IsNext (parts_after 10 (option_copied lines.entry)) before result.0 buf.new
        (option_copied result.1) result.2 }
{
    let mut left = lines;
    let mut actions = before.actions;
    'passing: for number in before.lines..u64::MAX {
        let Some(text) = left else {
            let tally = LineCounts {
                lines: number,
                events: before.events,
                actions,
            };
            return (Next::Done, None, tally);
        };
        let (line, rest) = cut(text, LINE_FEED);
        match kind_of(line, buf) {
            LineKind::Event(next) => {
                let tally = LineCounts {
                    lines: number + 1,
                    events: before.events + 1,
                    actions,
                };
                return (next, rest, tally);
            }
            LineKind::Action => actions += 1,
            LineKind::Neither => {}
            LineKind::Wrong => return (Next::Fault, lines, before),
        }
        left = rest;
    }
    // No memory holds so many lines.
    (Next::Fault, lines, before)
}
