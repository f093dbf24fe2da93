//! What the lines say, and their words.
ghost use Rattle.std.specs.Prelude.{◌≡◌, Some};
ghost use Rattle.std.specs.Fmt.{WritesOnOk};
ghost use Rattle.runlog.specs.Notes.{close_words, connected_words, counts_words, cut_words};
ghost use Rattle.runlog.specs.Notes.{late_words};
ghost use Rattle.runlog.specs.Notes.{left_out_words, line_text, line_words, not_kept_words};
ghost use Rattle.runlog.specs.Notes.{notice_words, of_station};
ghost use Rattle.runlog.specs.Notes.{given_up_words, peer_words, refused_peers_words};
ghost use Rattle.runlog.specs.Notes.{rejected_words};
ghost use Rattle.runlog.specs.Notes.{damaged_words, obstacle_words, remnant_words};
ghost use Rattle.runlog.specs.Notes.{skip_words, skipped_words, spoilt_words, sync_words};
ghost use Rattle.runlog.specs.Notes.{said, trouble_words, words};

use crate::causes::{cause_words, line_cause_words};
use crate::content::Skip;
use crate::fate::{CommandFate, Reason};
use crate::limit::LeftOut;
use crate::order::Order;
use crate::order_words::{write_fate, write_order, write_reason, write_type_name};
use crate::spoiling::{Spoiling, write_spoiling};
use gateway::Counts;
use live::{CutCause, Notice};
use session::Close;
use std::fmt;
use std::io::ErrorKind;
use std::net::{IpAddr, SocketAddr};

/// A line that was closed since nothing came from it.
const SILENT_LINE: &str = "line silent: requests went out and nothing came, it is dialled anew";

/// What stands behind a station whose answer to a command is dropped.
const MIRROR_DROPPED: &str = "answer to a command dropped: data transfer isn't running";

/// What stands before the file that a start can't use, and why.
const UNUSED: &str = "state: its directory can't be used, the run goes on without it: ";

/// A state whose syncs are long.
const ON_BTRFS: &str = "state: its directory is on btrfs, which writes 90 KB a sync";

/// What stands behind a station whose link is held though it doesn't answer.
const STILL_SILENT: &str = "still no reply: if it was restarted, restart telegate too";

/// What was counted since the run began.
#[derive(Clone, Copy, PartialEq, Eq)]
pub struct RunCounts {
    /// What the gateway counts.
    pub counts: Counts,
    /// How many places of the queue are taken.
    pub taken: u64,
    /// How many places it has.
    pub places: u64,
    /// How many connections were opened.
    pub connections: u64,
}

/// Why a start can't use the directory that is to have its state.
#[derive(Clone, Copy, PartialEq, Eq)]
pub struct Obstacle {
    /// The name of the file in the directory that can't be used, or `.` for the directory itself.
    pub place: &'static str,
    /// What the system answered.
    pub cause: ErrorKind,
}

/// What of the connection before it a start gives up.
#[derive(Clone, Copy, PartialEq, Eq)]
pub enum Remnant {
    /// A command on the line to which no answer came.
    Unanswered,
    /// A command that was never put on the line.
    Waiting,
    /// A selection.
    Selection,
    /// An own answer that wasn't sent.
    OwnAnswer,
}

/// Why a run can't begin, or go on.
#[derive(Clone, Copy, PartialEq, Eq)]
pub enum Trouble {
    /// Nobody listens where the line should be.
    LineRefused,
    /// The host or the path of the line isn't known.
    NameUnknown,
    /// The line can't be reached for another cause.
    LineUnreached,
    /// Somebody listens there already.
    PortInUse,
    /// The system doesn't allow to listen there.
    PortForbidden,
    /// It can't be listened there for another cause.
    PortUnusable,
    /// Another process keeps its state there.
    StateInUse,
    /// The state can't be kept there, at the start or any more.
    StateUnusable,
    /// Who wants to look at the run can't come in there.
    StatusUnusable,
}

/// What a line says.
#[derive(Clone, Copy, PartialEq, Eq)]
pub enum Note {
    LineReached,
    /// After it was lost.
    LineReachedAgain,
    /// Why the latest try to reach it again failed, if one has ended.
    LineLost(Option<ErrorKind>),
    /// It hasn't been reached yet, or not again; why the latest try failed, if that is known.
    LineNotThere(Option<ErrorKind>),
    /// Requests went out and nothing came, so it was closed and is reached anew.
    LineSilent,
    /// Control centres may connect there.
    Listening(SocketAddr),
    /// By whom, if that is known.
    Opened(Option<IpAddr>),
    /// STARTDT con went out (IEC 60870-5-104, 5.3).
    Started,
    /// STOPDT con went out (IEC 60870-5-104, 5.3).
    Stopped,
    Cut(CutCause),
    /// The gateway closed the connection.
    Closed(Close),
    /// How many were refused since the last such line, and the last of them.
    RefusedPeers(u64, Option<IpAddr>),
    /// The station with this link address is asked for the status of its link (IEC 60870-5-2).
    Asked(u16),
    /// It gets requests that are counted, so its link was reset.
    Up(u16),
    /// The same request has gone out to it more often than the settings' `retries` at first let it.
    Silent(u16),
    /// A minute after it was logged last that it doesn't answer the same service goes out still.
    StillSilent(u16),
    /// After that another request goes out to it, so it has answered.
    Again(u16),
    /// It is asked for the status again.
    Down(u16),
    /// Reports of it may be lost.
    Gap(u16),
    /// Fewer places of the queue are free than a report may take, so nothing is polled.
    QueueFull,
    QueueFree,
    Counts(RunCounts),
    /// No state is kept yet where it is to be kept.
    StateBegins,
    /// The run goes on from the state that is kept, with so many pieces in its queue.
    StateGoesOn(u64),
    /// The state was kept under other settings.
    SettingsChanged,
    /// Events are missing from the state, so nothing is known of the links.
    StateStale,
    /// What is kept can't be read, and stands under another name now.
    StatePutAside,
    /// The file of its log is damaged from this octet on, and nothing behind it is read.
    StateDamaged(u64),
    /// The run begins without the directory that was to have its state.
    StateRefused(Obstacle),
    /// The state can't be kept, and the run doesn't begin without it.
    StateUnkept(Obstacle),
    /// The directory of the state stands on btrfs.
    StateOnBtrfs,
    /// A sync of the state took so many ms, and the longest one since the run began so many.
    SlowSync(u64, u64),
    /// A start gives up this of the connection before it: its type octet, its common address and
    /// the address of its object.
    GivenUp(Remnant, u8, u16, u32),
    /// The state on the disk, from now on or still.
    State(Notice),
    /// The run can't begin, or go on.
    Trouble(Trouble),
    /// This command of the control centre, whose address may be known, goes on to its station.
    Ordered(Order, Option<IpAddr>),
    /// It never went out to its station, since its connection ended before.
    Unsent(Order),
    /// It doesn't go on.
    Refused(Order, Option<IpAddr>, Reason),
    /// What became of it at the station with this link address.
    Fate(Order, u16, CommandFate),
    /// A report of the station with this link address, with this type octet, isn't passed on.
    Skipped(u16, u8, Skip),
    /// An answer of it to a command is dropped, since data transfer isn't running.
    MirrorDropped(u16),
    /// This came in answer to a request to it, and no answer.
    Spoilt(u16, Spoiling),
    /// Octets came from it when its exchange was over, before the next request went out, so many ms
    /// behind the request.
    Late(u16, u64),
    /// So many lines of the log were left out, since there was no room for them.
    LeftOut(u64),
}

/// What stands in a place of a list that isn't used.
impl Default for Note {
    fn default() -> Note {
        Note::QueueFree
    }
}

/// A line of the log.
#[derive(Clone, Copy, PartialEq, Eq, Default)]
pub struct LogLine {
    /// The moment of its event in the run, in ms.
    pub moment: u64,
    pub note: Note,
    /// The lines of this kind that were left out before it.
    pub left_out: LeftOut,
}

fn peer_words<W: fmt::Write>(peer: Option<IpAddr>, f: &mut fmt::Formatter<W>) -> fmt::Result
    ensures { WritesOnOk W.write_str_gives f.old result (peer_words peer) f.new }
{
    match peer {
        Some(address) => write!(f, " by {address}"),
        None => Ok(()),
    }
}

fn write_connected<W: fmt::Write>(peer: Option<IpAddr>, f: &mut fmt::Formatter<W>) -> fmt::Result
    ensures { WritesOnOk W.write_str_gives f.old result (connected_words peer) f.new }
{
    match peer {
        Some(address) => write!(f, "connected: {address}"),
        None => f.write_str("connected"),
    }
}

fn close_words(cause: Close) -> &'static str
    ensures { result.now ≡ close_words cause }
{
    match cause {
        Close::Grammar => "octets that begin no APDU",
        Close::SendNumber => "an N(S) that isn't the next one",
        Close::ReceiveNumber => "an N(R) of frames that weren't sent",
        Close::Stopped => "an I frame while data transfer is stopped",
        Close::Timeout => "no acknowledgement for t1",
        Close::OwnAnswers => "an own answer found no place",
        Close::Replaced => "a new connection takes its place",
    }
}

fn cut_words(cause: CutCause) -> &'static str
    ensures { result.now ≡ cut_words cause }
{
    match cause {
        CutCause::Gone => "peer closed",
        CutCause::NotTaken => "it didn't take what was written",
        CutCause::Restarted => "the gateway was started again",
    }
}

fn remnant_words(remnant: Remnant) -> &'static str
    ensures { result.now ≡ remnant_words remnant }
{
    match remnant {
        Remnant::Unanswered => "command without an answer",
        Remnant::Waiting => "waiting command",
        Remnant::Selection => "selection",
        Remnant::OwnAnswer => "own answer",
    }
}

fn write_obstacle<W: fmt::Write>(obstacle: &Obstacle, f: &mut fmt::Formatter<W>) -> fmt::Result
    ensures { WritesOnOk W.write_str_gives f.old result (obstacle_words obstacle.now) f.new }
{
    f.write_str(obstacle.place)?;
    f.write_str(": ")?;
    f.write_str(cause_words(obstacle.cause))
}

fn write_sync<W: fmt::Write>(ms: u64, longest: u64, f: &mut fmt::Formatter<W>) -> fmt::Result
    ensures { WritesOnOk W.write_str_gives f.old result (sync_words ms longest) f.new }
{
    write!(f, "state: a sync took {ms} ms, ")?;
    write!(f, "the longest so far {longest} ms")
}

fn trouble_words(trouble: Trouble) -> &'static str
    ensures { result.now ≡ trouble_words trouble }
{
    match trouble {
        Trouble::LineRefused => "line refused",
        Trouble::NameUnknown => "name unknown",
        Trouble::LineUnreached => "line not reached",
        Trouble::PortInUse => "port in use",
        Trouble::PortForbidden => "port not allowed",
        Trouble::PortUnusable => "port can't be listened at",
        Trouble::StateInUse => "state in use by another process",
        Trouble::StateUnusable => "state can't be kept there",
        Trouble::StatusUnusable => "status port can't be used",
    }
}

fn write_line<W: fmt::Write>(
    what: &str,
    cause: Option<ErrorKind>,
    f: &mut fmt::Formatter<W>,
) -> fmt::Result
    ensures { WritesOnOk W.write_str_gives f.old result (line_words what.now cause) f.new }
{
    f.write_str(what)?;
    match cause {
        Some(cause) => {
            f.write_str(": ")?;
            f.write_str(line_cause_words(cause))
        }
        None => Ok(()),
    }
}

fn write_not_kept<W: fmt::Write>(cause: Option<ErrorKind>, f: &mut fmt::Formatter<W>) -> fmt::Result
    ensures { WritesOnOk W.write_str_gives f.old result (not_kept_words cause) f.new }
{
    f.write_str("state isn't kept: ")?;
    if let Some(cause) = cause {
        f.write_str(cause_words(cause))?;
        f.write_str(": ")?;
    }
    f.write_str("what is polled now is lost if the gateway stops")
}

fn write_notice<W: fmt::Write>(notice: Notice, f: &mut fmt::Formatter<W>) -> fmt::Result
    ensures { WritesOnOk W.write_str_gives f.old result (notice_words notice) f.new }
{
    match notice {
        Notice::NotKept(cause) => write_not_kept(cause, f),
        Notice::KeptAgain => f.write_str("state is kept again"),
    }
}

fn write_rejected<W: fmt::Write>(count: u64, f: &mut fmt::Formatter<W>) -> fmt::Result
    ensures { WritesOnOk W.write_str_gives f.old result (rejected_words count) f.new }
{
    write!(f, "{count} rejected ")?;
    f.write_str("(not in the allow list)")
}

fn write_refused_peers<W: fmt::Write>(
    count: u64,
    last: Option<IpAddr>,
    f: &mut fmt::Formatter<W>,
) -> fmt::Result
    ensures { WritesOnOk W.write_str_gives f.old result (refused_peers_words count last) f.new }
{
    write_rejected(count, f)?;
    match last {
        Some(address) => write!(f, ", the last at {address}"),
        None => Ok(()),
    }
}

fn write_counts<W: fmt::Write>(tally: &RunCounts, f: &mut fmt::Formatter<W>) -> fmt::Result
    ensures { WritesOnOk W.write_str_gives f.old result (counts_words tally.now) f.new }
{
    let Counts {
        skipped,
        mirrors,
        lost,
        spoilt,
    } = tally.counts;
    let RunCounts {
        taken,
        places,
        connections,
        ..
    } = *tally;
    write!(
        f,
        "counts skipped {skipped} mirrors {mirrors} lost {lost} spoilt {spoilt}"
    )?;
    write!(f, " queue {taken} of {places} connections {connections}")
}

fn skip_words(why: Skip) -> &'static str
    ensures { result.now ≡ skip_words why }
{
    match why {
        Skip::TooShort => "too short",
        Skip::TypeUnknown => "type not known",
        Skip::NoObjects => "no objects",
        Skip::OtherLength => "length doesn't fit the sizes in [line]",
        Skip::PastSize => "object address past its size",
        Skip::Negative => "it says that a type is unknown",
    }
}

fn write_skipped<W: fmt::Write>(
    station: u16,
    kind: u8,
    why: Skip,
    f: &mut fmt::Formatter<W>,
) -> fmt::Result
    ensures { WritesOnOk W.write_str_gives f.old result (skipped_words station kind why) f.new }
{
    write!(f, "station {station} report skipped, type {kind}")?;
    write_type_name(kind, f)?;
    f.write_str(": ")?;
    f.write_str(skip_words(why))
}

fn write_given_up<W: fmt::Write>(
    remnant: Remnant,
    kind: u8,
    ca: u16,
    object: u32,
    f: &mut fmt::Formatter<W>,
) -> fmt::Result
    ensures { WritesOnOk W.write_str_gives f.old result (given_up_words remnant kind ca object)
        f.new }
{
    f.write_str(remnant_words(remnant))?;
    write!(f, " of type {kind} to {ca}/{object}")?;
    f.write_str(", given up at a start")
}

fn write_damaged<W: fmt::Write>(place: u64, f: &mut fmt::Formatter<W>) -> fmt::Result
    ensures { WritesOnOk W.write_str_gives f.old result (damaged_words place) f.new }
{
    f.write_str("state: damaged, nothing is read from octet ")?;
    write!(f, "{place} of its log on")
}

fn write_of_station<W: fmt::Write>(
    address: u16,
    words: &str,
    f: &mut fmt::Formatter<W>,
) -> fmt::Result
    ensures { WritesOnOk W.write_str_gives f.old result (of_station address words.now) f.new }
{
    write!(f, "station {address} {words}")
}

fn write_spoilt<W: fmt::Write>(
    address: u16,
    spoiling: &Spoiling,
    f: &mut fmt::Formatter<W>,
) -> fmt::Result
    ensures { WritesOnOk W.write_str_gives f.old result (spoilt_words address spoiling.now)
        f.new }
{
    write!(f, "station {address} answer spoilt: ")?;
    write_spoiling(spoiling, f)
}

fn write_late<W: fmt::Write>(address: u16, ms: u64, f: &mut fmt::Formatter<W>) -> fmt::Result
    ensures { WritesOnOk W.write_str_gives f.old result (late_words address ms) f.new }
{
    write!(f, "answers of station {address} come late, ")?;
    write!(f, "{ms} ms behind their request: answer_ms is short")
}

impl fmt::Display for Note {
    ghost output = { λ note. Some (words note) };

    fn fmt<W: fmt::Write>(&self, f: &mut fmt::Formatter<W>) -> fmt::Result {
        match self {
            Note::LineReached => f.write_str("line reached"),
            Note::LineReachedAgain => f.write_str("line reached again"),
            Note::LineLost(cause) => write_line("line lost", *cause, f),
            Note::LineNotThere(cause) => write_line("line not there", *cause, f),
            Note::LineSilent => f.write_str(SILENT_LINE),
            Note::Listening(address) => write!(f, "listening at {address}"),
            Note::Opened(peer) => write_connected(*peer, f),
            Note::Started => f.write_str("connection started"),
            Note::Stopped => f.write_str("connection stopped"),
            Note::Cut(cause) => {
                let cause = cut_words(*cause);
                write!(f, "connection lost: {cause}")
            }
            Note::Closed(cause) => {
                let cause = close_words(*cause);
                write!(f, "connection closed: {cause}")
            }
            Note::RefusedPeers(count, last) => write_refused_peers(*count, *last, f),
            Note::Asked(address) => write!(f, "station {address} link status requested"),
            Note::Up(address) => write!(f, "station {address} up"),
            Note::Silent(address) => write!(f, "station {address} no reply"),
            Note::StillSilent(address) => write_of_station(*address, STILL_SILENT, f),
            Note::Again(address) => write!(f, "station {address} replies again"),
            Note::Down(address) => write!(f, "station {address} down"),
            Note::Gap(address) => write!(f, "station {address} gap: reports of it may be lost"),
            Note::QueueFull => f.write_str("queue full"),
            Note::QueueFree => f.write_str("queue free again"),
            Note::Counts(tally) => write_counts(tally, f),
            Note::StateBegins => f.write_str("state: begins anew"),
            Note::StateGoesOn(queued) => write!(f, "state: resumed, {queued} queued"),
            Note::SettingsChanged => f.write_str("state: settings have changed"),
            Note::StateStale => f.write_str("state is stale: each link is reset"),
            Note::StatePutAside => f.write_str("state can't be read: put aside"),
            Note::StateDamaged(place) => write_damaged(*place, f),
            Note::StateRefused(obstacle) => {
                f.write_str(UNUSED)?;
                write_obstacle(obstacle, f)
            }
            Note::StateUnkept(obstacle) => {
                f.write_str("state can't be kept there: ")?;
                write_obstacle(obstacle, f)
            }
            Note::StateOnBtrfs => f.write_str(ON_BTRFS),
            Note::SlowSync(ms, longest) => write_sync(*ms, *longest, f),
            Note::GivenUp(remnant, kind, ca, object) => {
                write_given_up(*remnant, *kind, *ca, *object, f)
            }
            Note::State(notice) => write_notice(*notice, f),
            Note::Trouble(trouble) => f.write_str(trouble_words(*trouble)),
            Note::Ordered(order, peer) => {
                write_order(order, f)?;
                peer_words(*peer, f)
            }
            Note::Unsent(order) => {
                write_order(order, f)?;
                f.write_str(" not sent: its connection ended")
            }
            Note::Refused(order, peer, reason) => {
                write_order(order, f)?;
                peer_words(*peer, f)?;
                f.write_str(" refused: ")?;
                write_reason(*reason, f)
            }
            Note::Fate(order, station, fate) => {
                write_order(order, f)?;
                write_fate(*fate, *station, f)
            }
            Note::Skipped(station, kind, why) => write_skipped(*station, *kind, *why, f),
            Note::MirrorDropped(address) => write_of_station(*address, MIRROR_DROPPED, f),
            Note::Spoilt(address, spoiling) => write_spoilt(*address, spoiling, f),
            Note::Late(address, ms) => write_late(*address, *ms, f),
            Note::LeftOut(count) => write!(f, "{count} lines left out: nobody read them in time"),
        }
    }
}

fn write_left_out<W: fmt::Write>(count: u64, since: u64, f: &mut fmt::Formatter<W>) -> fmt::Result
    ensures { WritesOnOk W.write_str_gives f.old result (left_out_words count since) f.new }
{
    if count == 0 {
        return Ok(());
    }
    write!(f, " ({count} left out")?;
    write!(f, " since {since})")
}

/// What a line says, without its moment.
#[derive(Clone, Copy)]
pub struct LineWords<'l> {
    pub line: &'l LogLine,
}

impl fmt::Display for LineWords<'_> {
    ghost output = { λ words. Some (said words.line.now) };

    fn fmt<W: fmt::Write>(&self, f: &mut fmt::Formatter<W>) -> fmt::Result {
        let LogLine { note, left_out, .. } = self.line;
        write!(f, "{note}")?;
        write_left_out(left_out.count, left_out.since, f)
    }
}

impl fmt::Display for LogLine {
    ghost output = { λ line. Some (line_text line) };

    fn fmt<W: fmt::Write>(&self, f: &mut fmt::Formatter<W>) -> fmt::Result {
        let words = LineWords { line: self };
        write!(f, "{} {words}", self.moment)
    }
}
