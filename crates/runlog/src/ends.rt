//! What is logged of the line, of the listener and of the connection.
ghost use Rattle.std.specs.Prelude.{◌≡◌};
ghost use Rattle.runlog.specs.Ends as spec;

use crate::causes::is_news;
use crate::limit::Limit;
use crate::note::{LogLine, Note};
use live::{CutCause, Presence, RefusedPeers};
use session::Close;
use std::io::ErrorKind;
use std::net::IpAddr;

/// The APDU STARTDT con (IEC 60870-5-104, 5.1).
const START_CONFIRMED: [u8; 6] = [0x68, 0x04, 0x0B, 0x00, 0x00, 0x00];

/// The APDU STOPDT con (IEC 60870-5-104, 5.1).
const STOP_CONFIRMED: [u8; 6] = [0x68, 0x04, 0x23, 0x00, 0x00, 0x00];

/// The line of something that happened, or none if it is left out.
pub(crate) fn happened(note: Note, limit: &mut Limit, now: u64) -> Option<LogLine>
    ensures { (limit.new, result) ≡ spec.happened note limit.old now }
{
    let left_out = limit.ask(now)?;
    Some(LogLine {
        moment: now,
        note,
        left_out,
    })
}

/// The line of a change, or none yet, if the one before is less than a second old.
pub(crate) fn changed(note: Note, limit: &mut Limit, now: u64) -> Option<LogLine>
    ensures { (limit.new, result) ≡ spec.changed note limit.old now }
{
    // A change isn't left out. If it still holds, it is logged when the second is over.
    if !limit.is_free(now) {
        return None;
    }
    happened(note, limit, now)
}

/// What was logged of the line last.
#[derive(Clone, Copy, PartialEq, Eq)]
pub(crate) enum LineLogged {
    Nothing,
    NotThere,
    There,
    Lost,
}

/// What is logged of the line.
#[derive(Clone, Copy, PartialEq, Eq)]
pub(crate) struct LineWatch {
    logged: LineLogged,
    there: Limit,
    away: Limit,
    /// Octets had come from it when it was seen last.
    is_receiving: bool,
    /// How it was seen last, and since when it is there or not, in ms.
    presence: Presence,
    since: u64,
    /// Why it wasn't there, as that was logged last.
    told: Option<ErrorKind>,
}

impl LineWatch {
    pub(crate) fn new() -> LineWatch
        ensures { result ≡ spec.new_line }
    {
        LineWatch {
            logged: LineLogged::Nothing,
            there: Limit::new(),
            away: Limit::new(),
            is_receiving: false,
            presence: Presence::Untried,
            since: 0,
            told: None,
        }
    }

    /// How it was seen last.
    pub(crate) fn presence(&self) -> Presence
        ensures { result ≡ self.now.presence }
    {
        self.presence
    }

    /// It was seen last as away, or as silent.
    pub(crate) fn is_away(&self) -> bool
        ensures { result ≡ spec.is_away self.now.presence }
    {
        is_away(self.presence)
    }

    /// Whether it was reached, or fell silent, as far as that was logged.
    pub(crate) fn was_there(&self) -> bool
        ensures { result ≡ spec.was_there self.now.logged }
    {
        matches!(self.logged, LineLogged::There | LineLogged::Lost)
    }

    /// Since when it is there, or isn't, in ms.
    pub(crate) fn since(&self) -> u64
        ensures { result ≡ self.now.since }
    {
        self.since
    }

    /// How it is seen.
    fn note(&mut self, presence: Presence, now: u64)
        ensures { self.new ≡ spec.presence_noted presence now self.old }
    {
        if is_there(presence) != is_there(self.presence) {
            self.since = now;
        }
        self.presence = presence;
        self.is_receiving = matches!(presence, Presence::Receiving);
    }

    /// The line is seen so.
    pub(crate) fn see(&mut self, presence: Presence, now: u64) -> Option<LogLine>
        ensures { (self.new, result) ≡ spec.line_seen presence now self.old }
    {
        // It may go and come back between two events: then nothing has come from it any more.
        let presence = seen_as(self.is_receiving, presence);
        self.note(presence, now);
        let is_due = self.away.is_minute_after(now) || is_news(cause_of(presence), self.told);
        let (logged, note) = line_change(self.logged, presence, is_due)?;
        // A limit for each way: a line that is lost right behind its coming is logged as lost.
        let line = if is_away(presence) {
            changed(note, &mut self.away, now)?
        } else {
            changed(note, &mut self.there, now)?
        };
        self.logged = logged;
        self.told = cause_of(presence);
        Some(line)
    }
}

/// Why a line that is seen so isn't there, if that is known.
fn cause_of(presence: Presence) -> Option<ErrorKind>
    ensures { result ≡ spec.cause_of presence }
{
    match presence {
        Presence::Away(cause) => cause,
        _ => None,
    }
}

/// That a line that is seen so isn't there, or is silent, is what is logged of it.
fn is_away(presence: Presence) -> bool
    ensures { result ≡ spec.is_away presence }
{
    matches!(presence, Presence::Away(_) | Presence::Silent)
}

/// Whether a line that is seen so is there.
fn is_there(presence: Presence) -> bool
    ensures { result ≡ spec.is_there presence }
{
    match presence {
        Presence::There | Presence::Receiving => true,
        Presence::Untried | Presence::Away(_) | Presence::Silent => false,
    }
}

/// A line that is there, and from which nothing has come, was away if octets had come before.
fn seen_as(was_receiving: bool, presence: Presence) -> Presence
    ensures { result ≡ spec.seen_as was_receiving presence }
{
    match (was_receiving, presence) {
        (true, Presence::There) => Presence::Away(None),
        (_, presence) => presence,
    }
}

/// What is to be logged next of a line of which this was logged last. That it isn't there is due
/// again a minute after it was logged, or for another cause.
fn line_change(logged: LineLogged, presence: Presence, is_due: bool) -> Option<(LineLogged, Note)>
    ensures { result ≡ spec.line_change logged presence is_due }
{
    match (logged, presence) {
        (_, Presence::Untried) => None,
        (LineLogged::Nothing, Presence::Away(cause)) => {
            Some((LineLogged::NotThere, Note::LineNotThere(cause)))
        }
        (LineLogged::There, Presence::Away(cause)) => {
            Some((LineLogged::Lost, Note::LineLost(cause)))
        }
        (LineLogged::NotThere, Presence::Away(cause)) | (LineLogged::Lost, Presence::Away(cause)) =>
            { is_due.then_some((logged, Note::LineNotThere(cause))) }
        (LineLogged::Lost, Presence::Silent) if !is_due => None,
        (_, Presence::Silent) => Some((LineLogged::Lost, Note::LineSilent)),
        (LineLogged::There, _) => None,
        // A server that accepts and closes is reached at each try, and nothing comes from it.
        (LineLogged::Lost, Presence::There) if !is_due => None,
        (LineLogged::Lost, _) => Some((LineLogged::There, Note::LineReachedAgain)),
        (LineLogged::Nothing, _) | (LineLogged::NotThere, _) => {
            Some((LineLogged::There, Note::LineReached))
        }
    }
}

/// What is logged of those who are refused.
#[derive(Clone, Copy, PartialEq, Eq)]
pub(crate) struct ListenerWatch {
    /// How many of them were logged.
    logged: u64,
    limit: Limit,
}

impl ListenerWatch {
    pub(crate) fn new() -> ListenerWatch
        ensures { result ≡ spec.new_listener }
    {
        ListenerWatch {
            logged: 0,
            limit: Limit::new(),
        }
    }

    /// So many were refused.
    pub(crate) fn see(&mut self, refused: RefusedPeers, now: u64) -> Option<LogLine>
        ensures { (self.new, result) ≡ spec.listener_seen refused now self.old }
    {
        // The count only grows, so the difference is those who came since.
        if refused.count <= self.logged {
            return None;
        }
        let more = refused.count - self.logged;
        let line = changed(Note::RefusedPeers(more, refused.last), &mut self.limit, now)?;
        self.logged = refused.count;
        Some(line)
    }
}

/// The connection that is open.
#[derive(Clone, Copy, PartialEq, Eq)]
pub struct OpenConnection {
    /// When it was opened, in ms.
    pub since: u64,
    /// STARTDT con has gone out on it, and no STOPDT con after that.
    pub is_started: bool,
}

/// What is logged of the connection.
#[derive(Clone, Copy, PartialEq, Eq)]
pub(crate) struct ConnectionWatch {
    /// How many were opened.
    count: u64,
    /// The address of the latest one's other end, if that is known.
    peer: Option<IpAddr>,
    /// The one that is open.
    opening: Option<OpenConnection>,
    opened: Limit,
    started: Limit,
    stopped: Limit,
    cut: Limit,
    closed: Limit,
}

impl ConnectionWatch {
    pub(crate) fn new() -> ConnectionWatch
        ensures { result ≡ spec.new_connection }
    {
        ConnectionWatch {
            count: 0,
            peer: None,
            opening: None,
            opened: Limit::new(),
            started: Limit::new(),
            stopped: Limit::new(),
            cut: Limit::new(),
            closed: Limit::new(),
        }
    }

    /// How many were opened.
    pub(crate) fn count(&self) -> u64
        ensures { result ≡ self.now.count }
    {
        self.count
    }

    /// The address of the latest one's other end, if that is known.
    pub(crate) fn peer(&self) -> Option<IpAddr>
        ensures { result ≡ self.now.peer }
    {
        self.peer
    }

    /// The one that is open.
    pub(crate) fn opening(&self) -> Option<OpenConnection>
        ensures { result ≡ self.now.opening }
    {
        self.opening
    }

    /// One was opened.
    pub(crate) fn open(&mut self, peer: Option<IpAddr>, now: u64) -> Option<LogLine>
        ensures { (self.new, result) ≡ spec.connection_opened peer now self.old }
    {
        self.count = self.count.saturating_add(1);
        self.peer = peer;
        self.opening = Some(OpenConnection {
            since: now,
            is_started: false,
        });
        happened(Note::Opened(peer), &mut self.opened, now)
    }

    /// It was cut.
    pub(crate) fn cut(&mut self, cause: CutCause, now: u64) -> Option<LogLine>
        ensures { (self.new, result) ≡ spec.connection_cut cause now self.old }
    {
        self.opening = None;
        happened(Note::Cut(cause), &mut self.cut, now)
    }

    /// An APDU went out.
    pub(crate) fn send(&mut self, octets: &[u8], now: u64) -> Option<LogLine>
        ensures { (self.new, result) ≡ spec.connection_sent octets.now now self.old }
    {
        if octets == START_CONFIRMED.as_slice() {
            self.start(true);
            happened(Note::Started, &mut self.started, now)
        } else if octets == STOP_CONFIRMED.as_slice() {
            self.start(false);
            happened(Note::Stopped, &mut self.stopped, now)
        } else {
            None
        }
    }

    /// Data transfer is started, or stopped, if one is open.
    fn start(&mut self, is_started: bool)
        ensures { self.new ≡ spec.transfer_noted is_started self.old }
    {
        if let Some(OpenConnection { since, .. }) = self.opening {
            self.opening = Some(OpenConnection { since, is_started });
        }
    }

    /// The gateway closed it.
    pub(crate) fn close(&mut self, cause: Close, now: u64) -> Option<LogLine>
        ensures { (self.new, result) ≡ spec.connection_closed cause now self.old }
    {
        // The one in whose place another comes is closed after that is opened.
        if !matches!(cause, Close::Replaced) {
            self.opening = None;
        }
        happened(Note::Closed(cause), &mut self.closed, now)
    }
}
