//! How long the oldest report of the queue has waited at least.
//!
//! The gateway keeps no moments of reports, and a queue may have 65,535 places. So one mark stands
//! for all: a moment, and how many reports had come by then. While more reports are queued than
//! have come since, one of them was queued then.
ghost use Rattle.std.specs.Prelude.{◌≡◌};
ghost use Rattle.status.specs.Oldest as spec;

use gateway::Gateway;
use runlog::{Traffic, Watch};

/// From how many octets on a piece may have another one of its report behind it.
// A report is cut into pieces that are as long as can be, and a last one. The shortest of these
// have 18 objects of 10 octets, with 3 octets of address each, behind 6 octets of header.
const FULL: usize = 240;

/// A moment, and how many reports had come by then.
#[derive(Clone, Copy)]
pub(crate) struct Mark {
    /// In ms of the run.
    moment: u64,
    come: u64,
}

/// How many reports have come from the stations, also such as aren't queued.
fn come_from(traffic: &[Traffic]) -> u64
    ensures { result ≡ spec.come_from 0 traffic.now }
{
    let mut come = 0u64;
    for station in traffic {
        come = come.saturating_add(station.reports());
    }
    come
}

/// How many reports are queued at least, if any is: so many pieces end one.
fn queued(gateway: &Gateway) -> u64
    ensures { result ≡ spec.queued gateway.now }
{
    let mut ended = 0u64;
    for piece in gateway.kept() {
        if piece.len() < FULL {
            ended = ended.saturating_add(1);
        }
    }
    ended.max(1)
}

/// More reports are queued than have come since.
fn holds(mark: Mark, come: u64, queued: u64) -> bool
    ensures { result ≡ spec.holds mark come queued }
{
    come.saturating_sub(mark.come) < queued
}

/// The mark at a count of the queue, of which so many places are taken. There is none if no report
/// is queued. One that doesn't hold any more is set anew.
pub(crate) fn marked(
    before: Option<Mark>,
    gateway: &Gateway,
    watch: &Watch,
    taken: u64,
) -> Option<Mark>
    ensures { result ≡ spec.marked gateway.now watch.now taken before }
{
    if taken == 0 {
        return None;
    }
    let come = come_from(watch.traffic());
    match before {
        Some(mark) if holds(mark, come, queued(gateway)) => Some(mark),
        _ => Some(Mark {
            moment: watch.moment(),
            come,
        }),
    }
}

/// For how many ms at least the oldest report had waited when the queue was counted last.
pub(crate) fn waited(counted: Option<u64>, mark: Option<Mark>) -> Option<u64>
    ensures { result ≡ spec.waited counted mark }
{
    match (counted, mark) {
        (Some(counted), Some(mark)) => Some(counted.saturating_sub(mark.moment)),
        _ => None,
    }
}
