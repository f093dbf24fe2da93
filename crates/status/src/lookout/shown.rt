//! Stations, line and control centre as they are shown.
ghost use Rattle.std.specs.Prelude.{◌≡◌, option_map};
ghost use Rattle.runlog.specs.Causes.{cause_words};
ghost use Rattle.runlog.specs.Ends.{was_there};
ghost use Rattle.status.specs.Shown as spec;

use crate::lookout::known::Known;
use crate::snapshot::{CentreView, Keeping, LineView, LinkState, StationView};
use arrayvec::ArrayVec;
use live::{Notice, Presence};
use runlog::{StationStanding, StationWatch, Traffic, Watch, cause_words, line_cause_words};
use std::io::ErrorKind;

/// The most stations that a line has.
const MOST_STATIONS: usize = 32;

/// The rows of a page.
pub(crate) type Rows<'a> = ArrayVec<StationView<'a>, MOST_STATIONS>;

/// How a station stands, in the words of a page.
fn standing_of(standing: StationStanding) -> LinkState
    ensures { result ≡ spec.standing_of standing }
{
    match standing {
        StationStanding::NotAsked => LinkState::NotAsked,
        StationStanding::Asked => LinkState::Asked,
        StationStanding::Up => LinkState::Up,
        StationStanding::Silent => LinkState::Silent,
        StationStanding::Down => LinkState::Down,
    }
}

/// A station's row.
fn station_of<'a>(known: &'a Known, watch: &StationWatch, traffic: &Traffic) -> StationView<'a>
    ensures { spec.IsStationRow known.entry.now watch.now traffic.now result }
{
    StationView {
        name: known.name.as_str(),
        address: watch.address(),
        common_address: known.common_address,
        standing: standing_of(watch.standing()),
        since_ms: watch.since(),
        last_report_ms: traffic.last_report(),
        reports: traffic.reports(),
        skipped: traffic.skipped(),
        gaps: watch.gaps(),
        commands: traffic.commands(),
        requests: watch.requests(),
        spoilt: traffic.spoilings(),
        late: traffic.late_answers(),
    }
}

/// The rows of the stations, in the order of the settings.
pub(crate) fn rows_of<'a>(known: &'a [Known], watch: &Watch) -> Rows<'a>
    ensures { spec.AreRows 32 known.entry.now watch.now.stations watch.now.traffic result.items }
{
    let mut rows = ArrayVec::new();
    let mut stations = watch.stations();
    let mut traffics = watch.traffic();
    for one in known {
        let Some((station, more_stations)) = stations.split_first() else {
            break;
        };
        let Some((traffic, more_traffics)) = traffics.split_first() else {
            break;
        };
        if rows.is_full() {
            break;
        }
        rows.push(station_of(one, station, traffic));
        stations = more_stations;
        traffics = more_traffics;
    }
    rows
}

/// Whether the line is there.
fn is_there(presence: Presence) -> bool
    ensures { result ≡ spec.is_there presence }
{
    match presence {
        Presence::Untried | Presence::Away(_) => false,
        Presence::There | Presence::Receiving => true,
        Presence::Silent => false,
    }
}

/// Why a line that is seen so is away, if that is known.
fn why_away(presence: Presence) -> Option<&'static str>
    ensures { option_map (λ c. c.now) result ≡ spec.why_away presence }
{
    match presence {
        Presence::Away(Some(cause)) => Some(line_cause_words(cause)),
        Presence::Silent => Some("nothing comes from it"),
        _ => None,
    }
}

/// The line.
pub(crate) fn line_of(watch: &Watch) -> LineView
    ensures there { result.is_there ≡ spec.is_there watch.now.line.presence }
    ensures was { result.was_there ≡ was_there watch.now.line.logged }
    ensures since { result.since_ms ≡ watch.now.line.since }
    ensures cause { option_map (λ c. c.now) result.cause ≡ spec.why_away watch.now.line.presence }
{
    let presence = watch.line_presence();
    LineView {
        is_there: is_there(presence),
        was_there: watch.line_was_there(),
        since_ms: watch.line_since(),
        cause: why_away(presence),
    }
}

/// The control centre, whose address this is, or which isn't there since this moment, in ms.
pub(crate) fn centre_of<'a>(
    watch: &Watch,
    peer: &'a str,
    gone_since: u64,
    unacknowledged: u64,
) -> CentreView<'a>
    ensures { spec.IsCentre watch.now.connection.opening peer.entry.now gone_since unacknowledged
        result }
{
    match watch.opening() {
        Some(opening) => CentreView {
            peer: Some(peer),
            is_started: opening.is_started,
            since_ms: opening.since,
            unacknowledged,
        },
        None => CentreView {
            peer: None,
            is_started: false,
            since_ms: gone_since,
            unacknowledged,
        },
    }
}

/// What a notice says of the state on the disk.
pub(crate) fn keeping_after(notice: Notice) -> Keeping
    ensures { result ≡ spec.keeping_after notice }
{
    match notice {
        Notice::NotKept(_) => Keeping::NotKept,
        Notice::KeptAgain => Keeping::Kept,
    }
}

/// Why the state can't be kept after a notice, if there is one.
pub(crate) fn lost_after(notice: Option<Notice>, before: Option<ErrorKind>) -> Option<ErrorKind>
    ensures { result ≡ spec.lost_after notice before }
{
    match notice {
        Some(Notice::NotKept(cause)) => cause,
        Some(Notice::KeptAgain) => None,
        None => before,
    }
}

/// What the system said, in words.
pub(crate) fn said_by(cause: Option<ErrorKind>) -> Option<&'static str>
    ensures { option_map (λ c. c.now) result ≡ option_map cause_words cause }
{
    match cause {
        Some(cause) => Some(cause_words(cause)),
        None => None,
    }
}
