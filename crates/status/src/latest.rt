//! The latest lines of the log, as they stand on a page.
ghost use Rattle.std.specs.Prelude.{◌≡◌, option_map};
ghost use Rattle.status.specs.Events as spec;
ghost use Rattle.status.specs.Shown.{text_or_none};
ghost use Rattle.status.specs.TextPage.{put};

use crate::page::TextPage;
use crate::snapshot::{Snapshot, StationView};
use crate::words::{Word, put_words};
use runlog::Subject;

/// The name of the station with this link address, if it is there.
fn name_in<'a>(stations: &[StationView<'a>], address: u16) -> Option<&'a str>
    ensures { option_map (λ s. s.now) result ≡ spec.name_in address stations.now }
{
    match stations.iter().find(|station| station.address == address) {
        Some(station) => Some(station.name),
        None => None,
    }
}

/// A text, or nothing.
fn text_or_none(text: Option<&str>) -> &str
    ensures { result.now ≡ text_or_none (option_map (λ t. t.now) text.entry) }
{
    match text {
        Some(text) => text,
        None => "",
    }
}

/// The name of what a line is about, or nothing.
pub(crate) fn name_about<'a>(snapshot: &Snapshot<'a>, about: Subject) -> &'a str
    ensures { result.now ≡ spec.name_about snapshot.now about }
{
    match about {
        Subject::Line => snapshot.name,
        Subject::Station(address) => text_or_none(name_in(snapshot.stations, address)),
        Subject::Other => "",
    }
}

/// What the wall clock showed at a moment before, in ms since 1970-01-01 UTC, if it is known now.
pub(crate) fn time_of(snapshot: &Snapshot<'_>, moment_ms: u64) -> Option<u64>
    ensures { result ≡ spec.time_of snapshot.now moment_ms }
{
    match snapshot.wall_ms {
        Some(wall_ms) => {
            let passed = snapshot.now_ms.saturating_sub(moment_ms);
            Some(wall_ms.saturating_sub(passed))
        }
        None => None,
    }
}

/// Puts the time of day, or a dash if it isn't known.
pub(crate) fn put_time(page: &mut TextPage, wall_ms: Option<u64>)
    ensures { page.new ≡ put (spec.time_text wall_ms) page.old }
{
    match wall_ms {
        Some(wall_ms) => put_words(
            page,
            &[
                Word::TwoDigits(wall_ms / 3_600_000 % 24),
                Word::Text(":"),
                Word::TwoDigits(wall_ms / 60_000 % 60),
                Word::Text(":"),
                Word::TwoDigits(wall_ms / 1000 % 60),
            ],
        ),
        None => page.put(b"-"),
    }
}
