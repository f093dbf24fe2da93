//! What a line of a script says to the outstations here alone, at no other place.
ghost use Rattle.std.specs.Prelude.{◌≡◌, ◌-◌, ◌≤◌, IfSome};
ghost use Rattle.sim.specs.Cues.{IsPeriod, given_at, is_due, next_due, report_due, restart_due};

use crate::directive::Class;
use link::UserData;

/// The longest time that passes in a play, in ms: what passes later counts as this.
pub(crate) const LAST_MS: u64 = 999_999_999_999_999;

/// A report that a station has at its moments, which are given in ms behind the start.
#[derive(Drop)]
pub struct Timer {
    /// The station's index, from 0.
    pub station: usize,
    /// The class of its data.
    pub class: Class,
    /// Its ASDU: 1 to 253 octets, or 252 with two-octet link addresses.
    pub report: UserData,
    /// Its moments are the multiples of so many ms, 10 to 86,400,000; it has one alone without.
    pub every: Option<u64>,
    /// When it is due next; never again without.
    pub due: Option<u64>,
}

/// A restart that a station has at its moments.
#[derive(Clone, Copy)]
pub struct RestartTimer {
    /// The station's index, from 0.
    pub station: usize,
    /// As those of a [`Timer`].
    pub every: Option<u64>,
    pub due: Option<u64>,
}

/// What a line says to the outstations here.
#[derive(Drop)]
pub enum Cue {
    /// A station has a report at its moments.
    Timed(Timer),
    /// A station restarts at its moments.
    Restarted(RestartTimer),
    /// The station with this index confirms each command that it accepts.
    Confirm(usize),
    /// The station with this index refuses each command that it accepts.
    Refuse(usize),
    /// The answer to the request with this number, from 1, goes out so many ms late.
    Delayed(u64, u64),
}

/// A report that is due.
#[derive(Drop)]
pub(crate) struct DueReport {
    pub(crate) station: usize,
    pub(crate) class: Class,
    pub(crate) report: UserData,
}

/// Whether what is due then is due now.
fn is_due(passed: u64, due: Option<u64>) -> bool
    ensures { result ≡ is_due passed due }
{
    match due {
        Some(due) => due <= passed,
        None => false,
    }
}

/// The first moment behind this one.
fn next_due(passed: u64, every: Option<u64>) -> Option<u64>
    requires passed { passed ≤ 999999999999999 }
    requires every { IfSome every IsPeriod }
    ensures { result ≡ next_due passed every }
{
    let ms = every?;
    Some(passed - passed % ms + ms)
}

impl Cue {
    ghost use Rattle.sim.specs.Cues.{IsTimely};

    /// The report that is due, so many ms behind the start.
    pub(crate) fn due(&self, passed: u64) -> Option<DueReport>
        ensures { result ≡ report_due passed self.now }
    {
        match self {
            Cue::Timed(timer) if is_due(passed, timer.due) => Some(DueReport {
                station: timer.station,
                class: timer.class,
                report: timer.report.copied(),
            }),
            _ => None,
        }
    }

    /// The station that is to restart, so many ms behind the start.
    pub(crate) fn restart(&self, passed: u64) -> Option<usize>
        ensures { result ≡ restart_due passed self.now }
    {
        match self {
            Cue::Restarted(timer) if is_due(passed, timer.due) => Some(timer.station),
            _ => None,
        }
    }

    /// Its report is given, or its station restarted, so many ms behind the start.
    pub(crate) fn give(&mut self, passed: u64)
        requires passed { passed ≤ 999999999999999 }
        requires timely { IsTimely self.old }
        ensures { self.new ≡ given_at passed self.old }
    {
        match self {
            Cue::Timed(timer) => timer.due = next_due(passed, timer.every),
            Cue::Restarted(timer) => timer.due = next_due(passed, timer.every),
            _ => {}
        }
    }
}
