//! Which line follows from what passes the port.
ghost use Rattle.std.specs.Prelude.{◌≡◌, IfOk};
ghost use Rattle.gateway.specs.Ports.{FitsBuffer, output_of};
ghost use Rattle.runlog.specs.Ends.{was_there};
ghost use Rattle.runlog.specs.Logging.{looked, looked_if_due};
ghost use Rattle.runlog.specs.Traffic.{new_traffics};
ghost use Rattle.runlog.specs.Watching as spec;

use crate::ends::{ConnectionWatch, LineWatch, ListenerWatch, OpenConnection, happened};
use crate::exchange::RequestWatch;
use crate::inbox::Inbox;
use crate::latest::LatestLines;
use crate::limit::LeftOut;
use crate::logger::taken_places;
use crate::note::{LogLine, Note, RunCounts, Trouble};
use crate::queue::QueueWatch;
use crate::stations::{StationWatch, gap};
use crate::syncs::SyncWatch;
use crate::traffic::{Traffic, traffic_line};
use crate::trail::Trail;
use asdu::Sizes;
use ft12::LinkSize;
use gateway::{Action, Config, Counts, Gateway, Next};
use live::{EndsSight, Failure, Presence, SyncTimes};
use session::Close;
use std::alloc::{AllocError, Global};
use std::marker::Model;
use std::net::IpAddr;

mod line;

/// How long after a look at the queue the next one follows, in ms.
// A look goes over all that is kept, and a line a second is logged of it at the most.
const LOOK_MS: u64 = 1000;

/// How long after a line of counts the next one follows, in ms.
// Often enough to see a line grow worse, and 1,440 lines a day at the most.
const COUNTS_MS: u64 = 60_000;

/// What the wall clock showed.
#[derive(Clone, Copy, PartialEq, Eq)]
struct WallShown {
    /// The moment of the run, in ms.
    moment: u64,
    /// What it showed then, in ms since 1970-01-01 UTC.
    shown: u64,
}

/// What has been logged of a run, and what is needed to log more.
#[derive(Drop)]
pub struct Watch {
    /// That of the latest event, in ms.
    moment: u64,
    /// When the queue was looked at last, in ms.
    looked: u64,
    /// When the counts were logged last, in ms.
    counted: u64,
    link: LinkSize,
    /// How many places the queue has.
    places: u64,
    line: LineWatch,
    listener: ListenerWatch,
    connection: ConnectionWatch,
    queue: QueueWatch,
    inbox: Inbox,
    /// The sizes of the line's ASDUs.
    sizes: Sizes,
    exchange: RequestWatch,
    /// What the gateway had counted when it was looked at last.
    seen: Counts,
    /// How many octets of the line were dropped before requests, as far as that was seen.
    late: u64,
    /// How long syncs of the state took, as far as that was seen.
    syncs: SyncTimes,
    slow: SyncWatch,
    /// The moment at which a line was sought among what is gathered, in ms.
    sought: u64,
    /// What the wall clock showed last; none before it was given.
    wall: Option<WallShown>,
    /// What is logged of the stations by the requests to them, in the order of the settings.
    stations: Vec<StationWatch>,
    /// What passes between them and the gateway, in the same order.
    traffic: Vec<Traffic>,
    /// What became of commands since that was told last.
    trail: Trail,
    /// The commands that went out to the line in the latest step: what it did besides is told
    /// first.
    gone: Trail,
    /// The latest lines of the log, whether it is written or not.
    latest: LatestLines,
}

impl Model for Watch {
    ghost use Rattle.runlog.specs.Watching.{Watching};

    ghost Value = { Watching };

    ghost view = { λ w. record {
      moment = w.moment;
      looked = w.looked;
      counted = w.counted;
      link = w.link;
      places = w.places;
      line = w.line;
      listener = w.listener;
      connection = w.connection;
      queue = w.queue;
      inbox = w.inbox;
      sizes = w.sizes;
      exchange = w.exchange;
      seen = w.seen;
      late = w.late;
      syncs = w.syncs;
      slow = w.slow;
      sought = w.sought;
      wall = w.wall;
      stations = w.stations.items;
      traffic = w.traffic.items;
      trail = w.trail;
      gone = w.gone;
      latest = w.latest;
    } };
}

/// What is logged of the stations at first.
fn stations_of(alloc: Global, config: &Config, tries: u64) -> Result<Vec<StationWatch>, AllocError>
    ensures { IfOk result (λ stations.
        stations.items ≡ spec.new_stations tries config.now.stations) }
{
    let mut stations = Vec::new(alloc);
    for station in config.stations() {
        stations.push(StationWatch::new(tries, station.address))?;
    }
    Ok(stations)
}

/// What has passed between the stations and the gateway at first.
fn traffic_of(alloc: Global, config: &Config) -> Result<Vec<Traffic>, AllocError>
    ensures { IfOk result (λ traffic.
        traffic.items ≡ new_traffics config.now.stations) }
{
    let mut traffic = Vec::new(alloc);
    for station in config.stations() {
        traffic.push(Traffic::new(station.address))?;
    }
    Ok(traffic)
}

impl Watch {
    /// That of a gateway with these settings, before its first event. Only this call takes memory.
    pub fn new(alloc: Global, config: &Config) -> Result<Watch, AllocError>
        ensures { IfOk result (λ watch. watch ≡ spec.new_watching config.now) }
    {
        Ok(Watch {
            moment: 0,
            looked: 0,
            counted: 0,
            link: config.line().link,
            places: config.line().queue as u64,
            line: LineWatch::new(),
            listener: ListenerWatch::new(),
            connection: ConnectionWatch::new(),
            queue: QueueWatch::new(),
            inbox: Inbox::new(),
            sizes: config.line().sizes,
            exchange: RequestWatch::new(config.line().answer_ms),
            seen: Counts {
                skipped: 0,
                mirrors: 0,
                lost: 0,
                spoilt: 0,
            },
            late: 0,
            syncs: SyncTimes::none(),
            slow: SyncWatch::new(),
            sought: 0,
            wall: None,
            trail: Trail::new(),
            gone: Trail::new(),
            latest: LatestLines::new(),
            traffic: traffic_of(alloc, config)?,
            stations: stations_of(alloc, config, u64::from(config.line().retries) + 1)?,
        })
    }

    /// The moment of the latest event, in ms.
    pub fn moment(&self) -> u64
        ensures { result ≡ self.now.moment }
    {
        self.moment
    }

    /// What the wall clock shows at that moment, in ms since 1970-01-01 UTC, once it was given.
    pub fn wall(&self) -> Option<u64>
        ensures { result ≡ spec.wall_of self.now }
    {
        match self.wall {
            Some(wall) => {
                // Between two events of the clock it goes on with the moments (docs/DECISIONS.md,
                // "The wall clock is an event").
                let passed = self.moment.saturating_sub(wall.moment);
                Some(wall.shown.saturating_add(passed))
            }
            None => None,
        }
    }

    /// The stations, in the order of the settings.
    pub fn stations(&self) -> &[StationWatch]
        ensures { result.now ≡ self.now.stations }
    {
        &self.stations
    }

    /// What has passed between each station and the gateway, in the same order.
    pub fn traffic(&self) -> &[Traffic]
        ensures { result.now ≡ self.now.traffic }
    {
        &self.traffic
    }

    /// Whether the line is there.
    pub fn line_presence(&self) -> Presence
        ensures { result ≡ self.now.line.presence }
    {
        self.line.presence()
    }

    /// Since when it is there, or isn't, in ms.
    pub fn line_since(&self) -> u64
        ensures { result ≡ self.now.line.since }
    {
        self.line.since()
    }

    /// Whether it has been there in this run, as far as that was logged.
    pub fn line_was_there(&self) -> bool
        ensures { result ≡ was_there self.now.line.logged }
    {
        self.line.was_there()
    }

    /// The latest 20 lines of the log, the newest first, but for those of counts: also if nothing
    /// is logged, as long as the run is watched.
    pub fn latest(&self) -> &[LogLine]
        ensures { result.now ≡ self.now.latest }
    {
        self.latest.as_slice()
    }

    /// How long syncs of the state on the disk took, as far as that was seen.
    pub fn syncs(&self) -> SyncTimes
        ensures { result ≡ self.now.syncs }
    {
        self.syncs
    }

    /// The connection that is open.
    pub fn opening(&self) -> Option<OpenConnection>
        ensures { result ≡ self.now.connection.opening }
    {
        self.connection.opening()
    }

    /// The address of the latest connection's other end, if that is known.
    pub fn peer(&self) -> Option<IpAddr>
        ensures { result ≡ self.now.connection.peer }
    {
        self.connection.peer()
    }

    /// How many connections were opened.
    pub fn connections(&self) -> u64
        ensures { result ≡ self.now.connection.count }
    {
        self.connection.count()
    }

    /// An event came, whose octets are the front of the buffer, and after which the ends are seen
    /// so.
    pub(crate) fn note_event(
        &mut self,
        next: Next,
        buf: &[u8; 1024],
        sight: &EndsSight,
    ) -> Option<LogLine>
        requires { FitsBuffer next }
        ensures { (self.new, result) ≡ spec.event_noted next buf.now sight.now self.old }
    {
        // First: they were dropped before this event, when the latest request went out.
        self.note_late(sight.late_octets);
        self.come(next, buf, sight)
    }

    /// The same, once what was late before it is noted.
    fn come(&mut self, next: Next, buf: &[u8; 1024], sight: &EndsSight) -> Option<LogLine>
        requires { FitsBuffer next }
        ensures { (self.new, result) ≡ spec.came next buf.now sight.now self.old }
    {
        match next {
            Next::Open(now) => {
                self.begin(now);
                // Half an APDU of the connection before is no beginning of one on this.
                self.inbox.empty();
                self.inbox.lose(now, &mut self.trail);
                self.connection.open(sight.peer, now)
            }
            Next::Cut(now) => {
                self.begin(now);
                self.inbox.empty();
                self.inbox.lose(now, &mut self.trail);
                self.connection.cut(sight.why_cut, now)
            }
            Next::Bytes(now, len) => {
                self.begin(now);
                self.receive(&buf[..len]);
                self.see(sight)
            }
            Next::Line(now, len) => {
                self.begin(now);
                self.receive_line(&buf[..len]);
                self.see(sight)
            }
            Next::Tick(now) => {
                self.begin(now);
                self.see(sight)
            }
            Next::Wall(now, shown) => {
                self.begin(now);
                self.wall = Some(WallShown { moment: now, shown });
                self.see(sight)
            }
            // It may be the store as well as the line (docs/DECISIONS.md, "What ended a run").
            Next::Fault | Next::Done => None,
        }
    }

    /// An event begins.
    fn begin(&mut self, now: u64)
        ensures { self.new ≡ spec.at now self.old }
    {
        self.moment = now;
        self.exchange.begin();
    }

    /// Octets came on the connection, if one is open.
    fn receive(&mut self, octets: &[u8])
        ensures { self.new ≡ spec.received octets.now self.old }
    {
        // Without a connection the gateway takes none either.
        if self.connection.opening().is_some() {
            self.inbox.receive(octets);
        }
    }

    /// The ends are seen so.
    fn see(&mut self, sight: &EndsSight) -> Option<LogLine>
        ensures { (self.new, result) ≡ spec.seen sight.now self.old }
    {
        let now = self.moment;
        self.syncs = sight.syncs;
        match self.line.see(sight.line, now) {
            Some(line) => Some(line),
            None => self.listener.see(sight.refused, now),
        }
    }

    /// An action goes out.
    pub(crate) fn put(&mut self, now: u64, action: &Action<'_>) -> Option<LogLine>
        ensures { (self.new, result) ≡ spec.put now (output_of action.now) self.old }
    {
        match action {
            Action::Line(octets) => self.ask(*octets, now),
            Action::Tcp(octets) => self.connection.send(*octets, now),
            Action::Close(cause) => self.close(*cause, now),
            Action::Gap { station, .. } => gap(&mut self.stations, *station, now),
        }
    }

    /// The gateway closes the connection.
    fn close(&mut self, cause: Close, now: u64) -> Option<LogLine>
        ensures { (self.new, result) ≡ spec.closed cause now self.old }
    {
        // The one that comes in its place stands there already.
        if !matches!(cause, Close::Replaced) {
            self.inbox.close();
        }
        self.inbox.lose(now, &mut self.trail);
        self.connection.close(cause, now)
    }

    /// Between two steps: notes what became of the commands that came in the latest one, and what
    /// was counted in it. Answers the line of the queue or the counts, or else of what is gathered.
    pub(crate) fn look_between(&mut self, gateway: &Gateway) -> Option<LogLine>
        ensures { (self.new, result) ≡ looked gateway.now self.old }
    {
        self.judge(gateway);
        match self.look_if_due(gateway) {
            Some(line) => Some(line),
            None => self.gathered(),
        }
    }

    /// Looks at the queue and the counts, if that is due.
    fn look_if_due(&mut self, gateway: &Gateway) -> Option<LogLine>
        ensures { (self.new, result) ≡ looked_if_due gateway.now self.old }
    {
        if !self.is_look_due() {
            return None;
        }
        self.look(gateway.counts(), taken_places(gateway))
    }

    /// Between two steps: notes what became of the commands that came in the latest one, and what
    /// was counted in it.
    fn judge(&mut self, gateway: &Gateway)
        ensures { self.new ≡ spec.judged gateway.now self.old }
    {
        self.inbox.judge(gateway, self.connection.peer());
        self.inbox.hand_on(&mut self.trail);
        self.note_counts(gateway.counts());
        self.trail.append(&mut self.gone);
    }

    /// This line is logged, or would be.
    pub(crate) fn keep(&mut self, line: &LogLine)
        ensures { self.new ≡ spec.heard line.now self.old }
    {
        self.latest.add(line);
    }

    /// Something is to be told of commands.
    pub(crate) fn has_trail(&self) -> bool
        ensures { result ≡ spec.has_trail self.now }
    {
        !self.trail.is_empty()
    }

    /// What became of commands, which is told now.
    pub(crate) fn take_trail(&mut self) -> Trail
        ensures lines { result ≡ self.old.trail }
        ensures told { self.new ≡ spec.told self.old }
    {
        self.trail.take()
    }

    /// The next line of what was gathered, if one may be logged now. It is sought once a ms.
    fn gathered(&mut self) -> Option<LogLine>
        ensures { (self.new, result) ≡ spec.gathered self.old }
    {
        let now = self.moment;
        // A flood has many steps in one moment, and this goes over all stations.
        if self.sought == now {
            return None;
        }
        self.sought = now;
        match self.inbox.line(now) {
            Some(line) => Some(line),
            None => self.traffic_line(),
        }
    }

    /// The next line of what befell stations, or of slow syncs.
    fn traffic_line(&mut self) -> Option<LogLine>
        ensures { (self.new, result) ≡ spec.traffic_logged self.old }
    {
        let now = self.moment;
        match traffic_line(&mut self.traffic, now) {
            Some(line) => Some(line),
            None => self.slow.see(self.syncs, now),
        }
    }

    /// The queue is to be looked at again.
    fn is_look_due(&self) -> bool
        ensures { result ≡ spec.is_look_due self.now }
    {
        LOOK_MS <= self.moment.saturating_sub(self.looked)
    }

    /// What a line of counts says now.
    fn tally(&self, counts: Counts, taken: u64) -> RunCounts
        ensures { result ≡ spec.tally counts taken self.now }
    {
        RunCounts {
            counts,
            taken,
            places: self.places,
            connections: self.connection.count(),
        }
    }

    /// The gateway has counted this, and so many places of its queue are taken.
    fn look(&mut self, counts: Counts, taken: u64) -> Option<LogLine>
        ensures { (self.new, result) ≡ spec.looked_at counts taken self.old }
    {
        self.looked = self.moment;
        match self.queue.see(taken, self.places, self.moment) {
            Some(line) => Some(line),
            None => self.count(counts, taken),
        }
    }

    /// The counts are logged each minute.
    fn count(&mut self, counts: Counts, taken: u64) -> Option<LogLine>
        ensures { (self.new, result) ≡ spec.counted counts taken self.old }
    {
        if self.moment.saturating_sub(self.counted) < COUNTS_MS {
            return None;
        }
        self.counted = self.moment;
        Some(self.sum(counts, taken))
    }

    /// The device has failed, and so the run is over: what of it has, if anything.
    pub(crate) fn fail(&mut self, failure: Option<Failure>) -> Option<LogLine>
        ensures { (self.new, result) ≡ spec.failed failure self.old }
    {
        match failure? {
            Failure::Line => self.line.see(Presence::Away(None), self.moment),
            Failure::State => Some(self.line(Note::Trouble(Trouble::StateUnusable))),
        }
    }

    /// The line of the counts.
    pub(crate) fn sum(&self, counts: Counts, taken: u64) -> LogLine
        ensures { result ≡ spec.sum_line counts taken self.now }
    {
        self.line(Note::Counts(self.tally(counts, taken)))
    }

    /// A line of this moment.
    pub(crate) fn line(&self, note: Note) -> LogLine
        ensures { result ≡ spec.line_of note self.now }
    {
        LogLine {
            moment: self.moment,
            note,
            left_out: LeftOut::none(),
        }
    }
}
