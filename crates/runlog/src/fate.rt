//! What becomes of a command.

use crate::spoiling::Spoiling;
use command::Refusal;

/// Why a command of the control centre doesn't go on to its station.
#[derive(Clone, Copy, PartialEq, Eq)]
pub enum Reason {
    /// It is refused by this rule.
    Rule(Refusal),
    /// Its connection was closed in the step in which it came.
    Closed,
}

/// What became of a command at its station.
#[derive(Clone, Copy, PartialEq, Eq)]
pub enum CommandFate {
    /// It went out to the station for the first time.
    Sent,
    /// The station confirmed it (causes 7 and 9, positive).
    Confirmed,
    /// The station answered it negatively.
    Denied,
    /// The station has done it (cause 10).
    Terminated,
    /// The station's link was busy, and the gateway answered it negatively.
    Busy,
    /// The station didn't answer, or its link was reset.
    GivenUp,
}

/// What befell a station, but for a report that was skipped and a command that it answered.
#[derive(Clone, Copy, PartialEq, Eq)]
pub(crate) enum Mishap {
    /// Its command was given up.
    GivenUp,
    /// Its answer to a command was dropped, since data transfer wasn't running.
    MirrorDropped,
    /// This came in its exchange, and no answer.
    Spoilt(Spoiling),
    /// Octets came behind its exchange, and were dropped so many ms behind its request.
    Late(u64),
}
