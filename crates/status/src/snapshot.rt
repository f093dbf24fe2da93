//! What a page shows: plain data that the caller fills in and lends.

use arrayvec::ArrayString;
use live::SyncTimes;
use runlog::{RequestCounts, Severity, Subject};

/// How a station stands.
#[derive(Clone, Copy, Default, PartialEq, Eq)]
pub enum LinkState {
    /// Nothing has been asked of it yet.
    #[default]
    NotAsked,
    /// It was asked for the status of its link, and hasn't answered yet.
    Asked,
    Up,
    /// The same request went out more often than a station that is there needs, without an answer.
    Silent,
    /// It is asked for the status of its link, and doesn't answer.
    Down,
}

/// A station. Moments are those of the run, in ms.
#[derive(Clone, Copy, Default)]
pub struct StationView<'a> {
    /// Up to 40 characters; empty if it has none.
    pub name: &'a str,
    /// Its link address.
    pub address: u16,
    pub common_address: u16,
    pub standing: LinkState,
    /// Since when it stands so.
    pub since_ms: u64,
    /// When its last report came; none if none has come.
    pub last_report_ms: Option<u64>,
    /// How many reports it has given.
    pub reports: u64,
    /// How many of them couldn't be used.
    pub skipped: u64,
    /// How often reports of it may be lost.
    pub gaps: u64,
    /// How many commands went to it.
    pub commands: u64,
    /// What was counted of the requests to it.
    pub requests: RequestCounts,
    /// How often something else than an answer came, and how often an answer came late.
    pub spoilt: u64,
    pub late: u64,
}

/// The line.
#[derive(Clone, Copy)]
pub struct LineView {
    pub is_there: bool,
    /// It has been there since this process began.
    pub was_there: bool,
    /// Since when it is there or away.
    pub since_ms: u64,
    /// Why it is away, if that is known.
    pub cause: Option<&'static str>,
}

/// The control centre.
#[derive(Clone, Copy)]
pub struct CentreView<'a> {
    /// The address that it connects from; none if it isn't connected.
    pub peer: Option<&'a str>,
    /// Data transfer is started (IEC 60870-5-104, 5.3).
    pub is_started: bool,
    /// Since when it is connected or not.
    pub since_ms: u64,
    /// How many pieces it hasn't acknowledged.
    pub unacknowledged: u64,
}

/// A line of the log.
#[derive(Clone, Copy)]
pub struct EventView {
    /// Its moment of the run, in ms.
    pub moment_ms: u64,
    pub severity: Severity,
    /// What it is about, whose name stands behind its words.
    pub about: Subject,
    /// Its words; empty if they find no room.
    pub text: ArrayString<256>,
}

/// What stands in a place of a list that isn't used.
impl Default for EventView {
    fn default() -> EventView {
        EventView {
            moment_ms: 0,
            severity: Severity::Info,
            about: Subject::Other,
            text: ArrayString::new(),
        }
    }
}

/// The queue of pieces that no connection has acknowledged.
#[derive(Clone, Copy)]
pub struct Queue<'a> {
    /// How many of its places are taken.
    pub taken: u64,
    /// How many places it has.
    pub places: u64,
    /// For how many ms the oldest report has waited at least; none if none is there.
    pub oldest_ms: Option<u64>,
    /// How many were taken in the last hour, one number a minute, the oldest first.
    pub hour: &'a [u64],
}

/// Whether the state is kept on the disk.
#[derive(Clone, Copy, PartialEq, Eq)]
pub enum Keeping {
    /// It isn't to be kept.
    Off,
    Kept,
    /// It is to be kept, and can't be.
    NotKept,
}

/// A setting in force.
#[derive(Clone, Copy, Default)]
pub struct Setting<'a> {
    pub key: &'a str,
    pub value: &'a str,
}

/// What a page shows. Moments are those of the run, in ms.
#[derive(Clone, Copy)]
pub struct Snapshot<'a> {
    pub version: &'a str,
    /// The moment that it shows.
    pub now_ms: u64,
    /// When this process began; a run that goes on after a restart is older.
    pub started_ms: u64,
    /// What the wall clock shows, in ms since 1970-01-01 UTC, if that is known.
    pub wall_ms: Option<u64>,
    /// What the line is called: up to 40 characters; empty if it has no name.
    pub name: &'a str,
    pub line: LineView,
    pub centre: CentreView<'a>,
    pub queue: Queue<'a>,
    pub keeping: Keeping,
    /// Why the state can't be kept, if that is known.
    pub lost_by: Option<&'static str>,
    /// How long syncs of the state on the disk took since this process began.
    pub syncs: SyncTimes,
    pub stations: &'a [StationView<'a>],
    /// The latest lines of the log, the newest first.
    pub latest: &'a [EventView],
    pub settings: &'a [Setting<'a>],
}
