//! The latest lines of the log as they are shown.
ghost use Rattle.std.specs.Prelude.{◌≡◌, take};
ghost use Rattle.status.specs.Shown.{AreEvents, IsEvent, IsTextOf};

use crate::snapshot::EventView;
use arrayvec::{ArrayString, ArrayVec};
use runlog::{LineWords, LogLine, subject_of};
use std::fmt::Write;

/// The words of a line, or nothing if they find no room.
fn text_of(line: &LogLine) -> ArrayString<256>
    ensures { IsTextOf line.now result.bytes }
{
    let mut text = ArrayString::new();
    let words = LineWords { line };
    match write!(text, "{words}") {
        Ok(()) => text,
        // Never: the longest line has 200 octets.
        Err(_) => ArrayString::new(),
    }
}

/// A line as it is shown.
fn event_of(line: &LogLine) -> EventView
    ensures { IsEvent line.now result }
{
    EventView {
        moment_ms: line.moment,
        severity: line.note.severity(),
        about: subject_of(&line.note),
        text: text_of(line),
    }
}

/// The latest lines as they are shown, 20 at the most.
pub(crate) fn events_of(latest: &[LogLine]) -> ArrayVec<EventView, 20>
    ensures { AreEvents (take 20 latest.now) result.items }
{
    let mut events = ArrayVec::new();
    for one in latest {
        if events.is_full() {
            break;
        }
        events.push(event_of(one));
    }
    events
}
