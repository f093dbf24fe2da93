//! What the state of the gateway calls for, as a monitor asks (0 ok, 1 warning, 2 critical).
ghost use Rattle.std.specs.Prelude.{◌≡◌};
ghost use Rattle.std.specs.List.{list_any};
ghost use Rattle.status.specs.Judge as spec;

use crate::snapshot::{Keeping, LineView, LinkState, Queue, Snapshot, StationView};

/// How long a line may be away before that is critical, in ms.
const LINE_MS: u64 = 60_000;

/// The most places of the queue that a report takes: if fewer are free nothing is polled.
const REPORT_PLACES: u64 = 3;

/// What the state calls for.
#[derive(Clone, Copy, PartialEq, Eq)]
pub enum Judgement {
    Ok,
    Warning,
    Critical,
}

/// The line is away, and has been for a minute.
fn is_lost(line: &LineView, now_ms: u64) -> bool
    ensures { result ≡ spec.is_lost line.now now_ms }
{
    // A lost line is tried again within half a minute (docs/DECISIONS.md, "A line that comes
    // back").
    !line.is_there && LINE_MS <= now_ms.saturating_sub(line.since_ms)
}

/// It was there, and isn't any more.
pub(crate) fn has_gone(line: &LineView) -> bool
    ensures { result ≡ spec.has_gone line.now }
{
    !line.is_there && line.was_there
}

/// It hasn't been there yet.
pub(crate) fn is_awaited(line: &LineView) -> bool
    ensures { result ≡ spec.is_awaited line.now }
{
    !line.is_there && !line.was_there
}

/// How many places may be taken while a report still finds room.
pub(crate) fn unfilled(queue: &Queue<'_>) -> u64
    ensures { result ≡ spec.unfilled queue.now }
{
    queue.places.saturating_sub(REPORT_PLACES)
}

/// Fewer places are free than a report may take, so nothing is polled.
pub(crate) fn is_full(queue: &Queue<'_>) -> bool
    ensures { result ≡ spec.is_full queue.now }
{
    queue.places.saturating_sub(queue.taken) < REPORT_PLACES
}

/// It doesn't answer.
pub(crate) fn is_silent(station: &StationView<'_>) -> bool
    ensures { result ≡ spec.is_silent station.now }
{
    matches!(station.standing, LinkState::Silent | LinkState::Down)
}

/// One of them doesn't answer.
fn has_silent(stations: &[StationView<'_>]) -> bool
    ensures { result ≡ list_any spec.is_silent stations.now }
{
    stations.iter().any(|station| is_silent(station))
}

/// It isn't known that it doesn't answer.
fn may_answer(station: &StationView<'_>) -> bool
    ensures { result ≡ spec.may_answer station.now }
{
    !is_silent(station)
}

/// One of them may answer.
fn has_answering(stations: &[StationView<'_>]) -> bool
    ensures { result ≡ list_any spec.may_answer stations.now }
{
    stations.iter().any(|station| may_answer(station))
}

/// There are some, and none of them answers.
fn are_all_silent(stations: &[StationView<'_>]) -> bool
    ensures { result ≡ spec.are_all_silent stations.now }
{
    !stations.is_empty() && !has_answering(stations)
}

/// It is up.
pub(crate) fn is_up(station: &StationView<'_>) -> bool
    ensures { result ≡ spec.is_up station.now }
{
    matches!(station.standing, LinkState::Up)
}

/// The state is to be kept on the disk, and can't be.
pub(crate) fn cannot_keep(keeping: Keeping) -> bool
    ensures { result ≡ spec.cannot_keep keeping }
{
    matches!(keeping, Keeping::NotKept)
}

/// The state is kept on the disk.
pub(crate) fn keeps(keeping: Keeping) -> bool
    ensures { result ≡ spec.keeps keeping }
{
    matches!(keeping, Keeping::Kept)
}

/// The state isn't to be kept on the disk.
pub(crate) fn is_off(keeping: Keeping) -> bool
    ensures { result ≡ spec.is_off keeping }
{
    matches!(keeping, Keeping::Off)
}

/// Reports don't get through, or would be lost.
fn is_critical(snapshot: &Snapshot<'_>) -> bool
    ensures { result ≡ spec.is_critical snapshot.now }
{
    is_lost(&snapshot.line, snapshot.now_ms)
        || snapshot.centre.peer.is_none()
        || is_full(&snapshot.queue)
        || cannot_keep(snapshot.keeping)
        || are_all_silent(snapshot.stations)
}

/// It may come to that.
fn is_warning(snapshot: &Snapshot<'_>) -> bool
    ensures { result ≡ spec.is_warning snapshot.now }
{
    !snapshot.line.is_there
        || snapshot.queue.places / 2 < snapshot.queue.taken
        || has_silent(snapshot.stations)
}

/// What the state calls for.
pub fn judge(snapshot: &Snapshot<'_>) -> Judgement
    ensures { result ≡ spec.judgement_of snapshot.now }
{
    if is_critical(snapshot) {
        Judgement::Critical
    } else if is_warning(snapshot) {
        Judgement::Warning
    } else {
        Judgement::Ok
    }
}
