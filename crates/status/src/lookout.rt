//! What of a live run is shown to who looks in at its status listener.
//!
//! A [`Lookout`] stands beside the gateway's loop and not in it: between two events it is lent the
//! gateway and what the log's watch knows, fills in a `Snapshot`, and gives each visitor a turn. It
//! can change neither, since both are lent for reading alone: so who looks changes nothing of a
//! run.
//!
//! Proved: a row has the numbers of the watch, the traffic and the settings that it is made of
//! (`IsStationRow`), and a station the name that the site gives it (`AreKnown`), in the order of
//! the settings (`AreRows`). What visitors are shown at a look is the run as it is then
//! ([`Lookout::look`]): the control centre and the state by the looks so far, and of the queue what
//! was counted less than a second before (`src/lookout/sight_laws.rt`).
ghost use Rattle.std.specs.Prelude.{◌≡◌, ◌≢◌, false, true, map, IfOk, None, string_bytes};
ghost use Rattle.std.specs.Prelude.{◌++◌, List, ℕ};
ghost use Rattle.status.specs.Looking as spec;
ghost use Rattle.status.specs.Looking.{IsFreshLookout, IsPeerText, IsShown, IsSnapshotOf, is_over};
ghost use Rattle.status.specs.Visits.{IsRound, place};
ghost use Rattle.status.specs.declared.snapshot.Snapshot.{Snapshot};

mod heard;
mod known;
mod oldest;
mod setting;
mod shown;
mod sight_laws;

pub use self::sight_laws::{
    each_station_has_its_row, line_state_and_settings_are_shown_as_they_are,
    the_centre_is_shown_as_it_is, the_queue_is_shown_as_it_is,
};
use crate::hour::Hour;
use crate::lookout::heard::events_of;
use crate::lookout::known::{Known, known_of};
use crate::lookout::oldest::{Mark, marked, waited};
use crate::lookout::setting::{ChosenSetting, chosen_of, settings_of};
use crate::lookout::shown::{centre_of, keeping_after, line_of, lost_after, rows_of, said_by};
use crate::snapshot::{Keeping, Queue, Snapshot};
use crate::streams::StreamSource;
use crate::visitors::Visitors;
use gateway::{Config, Gateway};
use live::Notice;
use runlog::{LogNames, Watch, taken_places};
use std::alloc::{AllocError, Global};
use std::io::ErrorKind;
use std::net::IpAddr;

/// How long after a turn of the visitors the next one follows, in ms of the run.
// A visitor's page takes some four turns; the way of a report is to stay as short as without them.
const TURN_MS: u64 = 20;

/// How long a count of the queue's pieces stands, in ms of the run.
// Counting goes over all that is kept.
const COUNT_MS: u64 = 1000;

/// What is shown of a run beside what the gateway and the watch know.
#[derive(Drop)]
struct ShownRun {
    version: &'static str,
    /// What the line is called; empty if it has no name.
    name: String,
    known: Vec<Known>,
    chosen: Vec<ChosenSetting>,
    /// How many places the queue has.
    places: u64,
    /// When the run began, in ms; none before its first event.
    began: Option<u64>,
    keeping: Keeping,
    /// Why the state can't be kept, if that is known.
    lost_by: Option<ErrorKind>,
    hour: Hour,
    /// How many places were taken when they were counted last.
    taken: u64,
    /// When that was, in ms.
    counted: Option<u64>,
    /// By then the oldest report had waited since this mark at least.
    mark: Option<Mark>,
    /// The address of the latest connection's other end, and how many connections there were then.
    peer: String,
    opened: u64,
    /// Since when no connection is open, in ms.
    gone_since: u64,
    was_open: bool,
}

/// Who looks at a run through this listener.
#[derive(Drop)]
pub struct Lookout<D: StreamSource + Drop> {
    visitors: Visitors<D>,
    shown: ShownRun,
    /// When the visitors had a turn last, in ms.
    turned: Option<u64>,
}

impl<D: StreamSource + Drop> Lookout<D> {
    /// Who looks through this listener at a run with these settings. All memory is taken here.
    ///
    /// # Errors
    ///
    /// Want of memory.
    pub fn new(
        alloc: Global,
        config: &Config,
        names: LogNames<'_>,
        version: &'static str,
        keeps_state: bool,
        listener: D,
    ) -> Result<Lookout<D>, AllocError>
        ensures fresh { IfOk result (λ l.
            IsFreshLookout config.now names.entry keeps_state l.shown) }
        ensures version { IfOk result (λ l.
            l.shown.version.now ≡ version.entry.now) }
        ensures turned { IfOk result (λ l. l.turned ≡ None) }
    {
        Ok(Lookout {
            visitors: Visitors::new(alloc, listener)?,
            shown: ShownRun::new(alloc, config, names, version, keeps_state)?,
            turned: None,
        })
    }

    /// Gives the visitors a turn, if that is due, between two events of the run. The gateway and
    /// the watch are lent for reading, so who looks changes neither.
    pub fn look(&mut self, gateway: &Gateway, watch: &Watch, notice: Option<Notice>)
        ensures shown { self.new.shown ≡ record (spec.looked self.old.turned gateway.now watch.now
            notice self.old.shown) { peer = self.new.shown.peer } }
        ensures turned { self.new.turned ≡ spec.turned_after self.old.turned watch.now.moment }
        ensures waits { is_over self.old.turned watch.now.moment 20 ≡ false →
            self.new.visitors ≡ self.old.visitors }
        // A look that finds another connection than the one before names its other end.
        ensures peer { self.old.shown.opened ≢ watch.now.connection.count →
            IsPeerText watch.now.connection.peer (string_bytes self.new.shown.peer) }
        ensures same_peer { self.old.shown.opened ≡ watch.now.connection.count →
            self.new.shown.peer ≡ self.old.shown.peer }
        // What visitors are shown is the run as it is at this look.
        ensures shows { is_over self.old.turned watch.now.moment 20 ≡ true →
            (s : Snapshot) × IsShown self.new.shown watch.now s
            × IsRound D.Stream.given D.Stream.taken D.Stream.calls s.now_ms s
            (D.arrivals self.old.visitors.source) (D.arrivals self.new.visitors.source)
            (map (λ seat. place seat.client seat.desk) self.old.visitors.seats.items)
            (map (λ seat. place seat.client seat.desk) self.new.visitors.seats.items) }
    {
        self.shown.note(watch, notice);
        let now = watch.moment();
        if !is_over(self.turned, now, TURN_MS) {
            return;
        }
        self.turned = Some(now);
        self.shown.count(gateway, watch);
        turn(&mut self.visitors, &self.shown, watch);
    }
}

/// How the state is kept before the first event.
fn keeping_at_first(keeps_state: bool) -> Keeping
    ensures { result ≡ spec.keeping_at_first keeps_state }
{
    if keeps_state {
        Keeping::Kept
    } else {
        Keeping::Off
    }
}

/// How the state is kept after a notice, if there is one.
fn keeping_by(notice: Option<Notice>, before: Keeping) -> Keeping
    ensures { result ≡ spec.keeping_by notice before }
{
    match notice {
        Some(notice) => keeping_after(notice),
        None => before,
    }
}

/// Whether so many ms have passed since then.
fn is_over(since: Option<u64>, now: u64, ms: u64) -> bool
    ensures { result ≡ is_over since now ms }
{
    match since {
        Some(since) => ms <= now.saturating_sub(since),
        None => true,
    }
}

/// Writes the address of a connection's other end, or that it isn't known.
fn write_peer(text: &mut String, peer: Option<IpAddr>) -> Result<(), AllocError>
    ensures { IfOk result (λ _. (words : List ℕ) × IsPeerText peer words
        × (string_bytes text.new ≡ string_bytes text.old ++ words)) }
{
    match peer {
        Some(address) => write!(text, "{address}"),
        None => write!(text, "unknown"),
    }
}

impl ShownRun {
    fn new(
        alloc: Global,
        config: &Config,
        names: LogNames<'_>,
        version: &'static str,
        keeps_state: bool,
    ) -> Result<ShownRun, AllocError>
        ensures fresh { IfOk result (λ s. IsFreshLookout config.now names.entry keeps_state s) }
        ensures version { IfOk result (λ s. s.version.now ≡ version.entry.now) }
    {
        Ok(ShownRun {
            version,
            name: String::from_str(alloc, names.line.unwrap_or(""))?,
            known: known_of(alloc, config.stations(), names.stations)?,
            chosen: chosen_of(alloc, config)?,
            places: u64::from(config.line().queue),
            began: None,
            keeping: keeping_at_first(keeps_state),
            lost_by: None,
            hour: Hour::new(),
            taken: 0,
            counted: None,
            mark: None,
            peer: String::with_capacity(alloc, 64)?,
            opened: 0,
            gone_since: 0,
            was_open: false,
        })
    }

    /// Notes what is said once: of the state on the disk, and of connections.
    fn note(&mut self, watch: &Watch, notice: Option<Notice>)
        ensures noted { self.new
            ≡ record (spec.noted watch.now notice self.old) { peer = self.new.peer } }
        ensures peer { self.old.opened ≢ watch.now.connection.count →
            IsPeerText watch.now.connection.peer (string_bytes self.new.peer) }
        ensures same { self.old.opened ≡ watch.now.connection.count →
            self.new.peer ≡ self.old.peer }
    {
        let now = watch.moment();
        let is_open = watch.opening().is_some();
        if self.began.is_none() || self.was_open && !is_open {
            self.gone_since = now;
        }
        self.began = Some(self.began.unwrap_or(now));
        self.keeping = keeping_by(notice, self.keeping);
        self.lost_by = lost_after(notice, self.lost_by);
        self.was_open = is_open;
        if self.opened != watch.connections() {
            self.opened = watch.connections();
            self.name_peer(watch);
        }
    }

    /// Notes the address of the connection's other end.
    fn name_peer(&mut self, watch: &Watch)
        ensures same { self.new ≡ record self.old { peer = self.new.peer } }
        ensures peer { IsPeerText watch.now.connection.peer (string_bytes self.new.peer) }
    {
        self.peer.clear();
        if write_peer(&mut self.peer, watch.peer()).is_err() {
            self.peer.clear();
        }
    }

    /// Counts the pieces of the queue, if that is due.
    fn count(&mut self, gateway: &Gateway, watch: &Watch)
        ensures { self.new ≡ spec.counted gateway.now watch.now self.old }
    {
        let now = watch.moment();
        if !is_over(self.counted, now, COUNT_MS) {
            return;
        }
        self.counted = Some(now);
        self.taken = taken_places(gateway);
        self.mark = marked(self.mark, gateway, watch, self.taken);
        self.hour.note(now, self.taken);
    }
}

/// What is shown beside the stations and the settings.
fn snapshot_of<'a>(shown: &'a ShownRun, watch: &Watch) -> Snapshot<'a>
    ensures { IsSnapshotOf shown.entry.now watch.now result }
{
    let now = watch.moment();
    Snapshot {
        version: shown.version,
        now_ms: now,
        started_ms: shown.began.unwrap_or(now),
        wall_ms: watch.wall(),
        name: shown.name.as_str(),
        line: line_of(watch),
        centre: centre_of(watch, shown.peer.as_str(), shown.gone_since, shown.taken),
        queue: Queue {
            taken: shown.taken,
            places: shown.places,
            oldest_ms: waited(shown.counted, shown.mark),
            hour: shown.hour.numbers(),
        },
        keeping: shown.keeping,
        lost_by: said_by(shown.lost_by),
        syncs: watch.syncs(),
        stations: &[],
        latest: &[],
        settings: &[],
    }
}

/// Gives the visitors a turn at what is shown now, and at nothing else.
fn turn<D: StreamSource + Drop>(visitors: &mut Visitors<D>, shown: &ShownRun, watch: &Watch)
    ensures { (s : Snapshot) × IsShown shown.now watch.now s
        × IsRound D.Stream.given D.Stream.taken D.Stream.calls s.now_ms s
        (D.arrivals visitors.old.source) (D.arrivals visitors.new.source)
        (map (λ seat. place seat.client seat.desk) visitors.old.seats.items)
        (map (λ seat. place seat.client seat.desk) visitors.new.seats.items) }
{
    let rows = rows_of(shown.known.as_slice(), watch);
    let settings = settings_of(shown.chosen.as_slice());
    let latest = events_of(watch.latest());
    let snapshot = Snapshot {
        stations: rows.as_slice(),
        settings: settings.as_slice(),
        latest: latest.as_slice(),
        ..snapshot_of(shown, watch)
    };
    visitors.turn(snapshot.now_ms, &snapshot);
}
