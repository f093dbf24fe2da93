//! What a start makes of the link to a station.
ghost use Rattle.std.specs.Prelude.{◌≡◌, ◌==◌};
ghost use Rattle.ft12.specs.Spelling.{address_len};
ghost use Rattle.asdu.specs.Sizes.{cause_len, ca_len, ioa_len};
ghost use Rattle.gateway.specs.Starts.{have_same_sizes, are_same, link_start};

use crate::settings::{LineSettings, StationSettings};
use asdu::{CaSize, CauseSize, IoaSize};
use ft12::LinkSize;

/// What becomes of a station's link at a start.
#[derive(Clone, Copy, PartialEq, Eq)]
pub enum LinkStart {
    /// The station is new: its link is down, and its first answered reset reports a gap.
    Down,
    /// There is no such station any more. A command that is held for it is counted as lost; what is
    /// queued of it goes out.
    Dropped,
    /// Its link is reset, as if a poll were unanswered: so the gap is reported.
    ResetAfterGap,
    /// Its link is reset. A gap is reported if a poll was unanswered.
    Reset,
    /// It goes on.
    GoesOn,
}

/// Whether link addresses have as many octets.
fn has_same_link(a: LinkSize, b: LinkSize) -> bool
    ensures { result ≡ (address_len a == address_len b) }
{
    match (a, b) {
        (LinkSize::One, LinkSize::One) | (LinkSize::Two, LinkSize::Two) => true,
        (_, _) => false,
    }
}

/// Whether causes of transmission have as many octets.
fn has_same_cause(a: CauseSize, b: CauseSize) -> bool
    ensures { result ≡ (cause_len a == cause_len b) }
{
    match (a, b) {
        (CauseSize::One, CauseSize::One) | (CauseSize::Two, CauseSize::Two) => true,
        (_, _) => false,
    }
}

/// Whether common addresses have as many octets.
fn has_same_ca(a: CaSize, b: CaSize) -> bool
    ensures { result ≡ (ca_len a == ca_len b) }
{
    match (a, b) {
        (CaSize::One, CaSize::One) | (CaSize::Two, CaSize::Two) => true,
        (_, _) => false,
    }
}

/// Whether addresses of information objects have as many octets.
fn has_same_ioa(a: IoaSize, b: IoaSize) -> bool
    ensures { result ≡ (ioa_len a == ioa_len b) }
{
    match (a, b) {
        (IoaSize::One, IoaSize::One)
        | (IoaSize::Two, IoaSize::Two)
        | (IoaSize::Three, IoaSize::Three) => true,
        (_, _) => false,
    }
}

/// Whether link addresses, and the numbers in ASDUs, have as many octets.
pub(crate) fn have_same_sizes(a: &LineSettings, b: &LineSettings) -> bool
    ensures { result ≡ have_same_sizes a.now b.now }
{
    has_same_link(a.link, b.link)
        && has_same_cause(a.sizes.cause, b.sizes.cause)
        && has_same_ca(a.sizes.ca, b.sizes.ca)
        && has_same_ioa(a.sizes.ioa, b.sizes.ioa)
}

/// Whether a station is set as it was.
fn are_same(before: &StationSettings, now: &StationSettings) -> bool
    ensures { result ≡ are_same before.now now.now }
{
    let is_alike = if before.select {
        now.select
    } else {
        !now.select
    };
    before.ca == now.ca && is_alike
}

/// What becomes of the link of a station that was set so before, and is set so now, by its link
/// address: whether the state is one that the run goes on with, and whether the sizes of link
/// addresses, and of the numbers in ASDUs, are as they were.
pub fn link_start(
    goes_on: bool,
    same_sizes: bool,
    before: Option<StationSettings>,
    now: Option<StationSettings>,
) -> LinkStart
    ensures { result ≡ link_start goes_on same_sizes before now }
{
    let Some(before) = before else {
        return LinkStart::Down;
    };
    let Some(now) = now else {
        return LinkStart::Dropped;
    };
    // Before the settings are compared: what went out last isn't known, whatever they are.
    if !goes_on {
        return LinkStart::ResetAfterGap;
    }
    // Else a held command could be another one at the station, or go past its guard.
    if same_sizes && are_same(&before, &now) {
        LinkStart::GoesOn
    } else {
        LinkStart::Reset
    }
}
