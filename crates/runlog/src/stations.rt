//! What is logged of the stations, by the requests that go out to them.
ghost use Rattle.std.specs.Prelude.{◌≡◌, ◌≤◌, map, if◌then◌else◌};
ghost use Rattle.runlog.specs.Limits.{is_minute_after, one_more};
ghost use Rattle.runlog.specs.Stations as spec;

use crate::ends::{changed, happened};
use crate::limit::Limit;
use crate::note::{LogLine, Note};
use crate::order::octet;
use ft12::LinkSize;
use link::{Control, PrimaryFunction};

/// What is asked of a station, or logged of it.
#[derive(Clone, Copy, PartialEq, Eq)]
pub(crate) enum Asking {
    /// The status of its link.
    Status,
    /// That it resets its link.
    Reset,
    /// Something that is counted by the frame count bit: its link was reset before.
    Counted(bool),
    Other,
    /// Nothing: it is logged that reports of it may be lost.
    Missed,
}

/// What is known of a station's link, by the requests that have gone out in this run.
#[derive(Clone, Copy, PartialEq, Eq)]
pub(crate) enum LinkKnown {
    /// No service was answered yet, and none was followed by a reset.
    Nothing,
    /// A service was answered: the next one has the other frame count bit.
    Up,
    /// It went down, and no service was answered since.
    Down,
}

/// What was logged of a station last.
#[derive(Clone, Copy, PartialEq, Eq)]
pub(crate) enum StationLogged {
    Nothing,
    Asked,
    Up,
    /// It was up, and doesn't answer any more.
    Silent,
    Down,
    /// It is asked for its status, and doesn't answer.
    Unanswered,
}

/// How a station stands, by the requests that have gone out to it.
#[derive(Clone, Copy, PartialEq, Eq)]
pub enum StationStanding {
    /// None has gone out yet.
    NotAsked,
    /// It hasn't answered a service yet, and its link hasn't gone down in this run.
    Asked,
    /// It gets requests that are counted, and has answered one.
    Up,
    /// The same request has gone out more often than a station that is there lets it.
    Silent,
    /// Its link went down, and it hasn't answered a service since.
    Down,
}

/// What was counted of the requests to a station, while the line was there.
#[derive(Clone, Copy, Default, PartialEq, Eq)]
pub struct RequestCounts {
    /// How many went out.
    pub sent: u64,
    /// How many of them were the one before again.
    pub repeats: u64,
    /// How often it didn't answer one at any of its repeats.
    pub unanswered: u64,
}

/// What is logged of a station.
#[derive(Clone, Copy, PartialEq, Eq)]
pub struct StationWatch {
    /// Its link address.
    address: u16,
    /// How often a request goes out before one that isn't answered counts as unanswered.
    tries: u64,
    /// The frame count bit of the latest counted request; none if its status was asked since.
    bit: Option<bool>,
    /// How often that request went out, or its status was asked since.
    sent: u64,
    /// The frame count bit of the latest service since its link was reset.
    served: Option<bool>,
    link: LinkKnown,
    /// Since when it stands so, in ms.
    since: u64,
    /// How often reports of it may have been lost.
    gaps: u64,
    requests: RequestCounts,
    logged: StationLogged,
    asked: Limit,
    up: Limit,
    silent: Limit,
    again: Limit,
    down: Limit,
    gap: Limit,
}

/// Where the control octet of a frame stands.
pub(crate) fn control_place(octets: &[u8]) -> usize
    ensures value { result ≡ spec.control_place octets.now }
    ensures few { result ≤ 4 }
{
    if octet(octets, 0) == 0x10 { 1 } else { 4 }
}

/// The link address of a request.
pub(crate) fn address_of(size: LinkSize, octets: &[u8]) -> u16
    ensures { result ≡ spec.address_of size octets.now }
{
    let place = control_place(octets);
    let low = octet(octets, place + 1) as u16;
    match size {
        LinkSize::One => low,
        LinkSize::Two => low + 256 * (octet(octets, place + 2) as u16),
    }
}

/// What a request asks of its station.
pub(crate) fn asking_of(octets: &[u8]) -> Asking
    ensures { result ≡ spec.asking_of octets.now }
{
    match Control::from_octet(octet(octets, control_place(octets))) {
        Control::Primary { fcv: true, fcb, .. } => Asking::Counted(fcb),
        Control::Primary {
            function: PrimaryFunction::LinkStatus,
            ..
        } => Asking::Status,
        Control::Primary {
            function: PrimaryFunction::ResetLink,
            ..
        } => Asking::Reset,
        _ => Asking::Other,
    }
}

/// Whether this bit is the one before again.
fn is_again(before: Option<bool>, bit: bool) -> bool
    ensures { result ≡ spec.is_again before bit }
{
    match before {
        None => false,
        Some(before) => before == bit,
    }
}

/// Whether this bit is another one than the one before.
fn is_other(before: Option<bool>, bit: bool) -> bool
    ensures { result ≡ spec.is_other before bit }
{
    match before {
        None => false,
        Some(before) => before != bit,
    }
}

fn is_same(before: StationStanding, after: StationStanding) -> bool
    ensures { result ≡ spec.is_same before after }
{
    match (before, after) {
        (StationStanding::NotAsked, StationStanding::NotAsked) => true,
        (StationStanding::Asked, StationStanding::Asked) => true,
        (StationStanding::Up, StationStanding::Up) => true,
        (StationStanding::Silent, StationStanding::Silent) => true,
        (StationStanding::Down, StationStanding::Down) => true,
        _ => false,
    }
}

/// So much once more, if that is so.
fn more_if(is_so: bool, count: u64) -> u64
    ensures { result ≡ spec.more_if is_so count }
{
    if is_so {
        count.saturating_add(1)
    } else {
        count
    }
}

/// What was counted of the requests to a station behind this one, of which this was known before,
/// and which it doesn't answer now, or does.
fn requests_after(asking: Asking, before: &StationWatch, is_unanswered: bool) -> RequestCounts
    ensures { result ≡ spec.requests_after asking before.now is_unanswered }
{
    let RequestCounts {
        sent,
        repeats,
        unanswered,
    } = before.requests;
    let is_request = !matches!(asking, Asking::Missed);
    RequestCounts {
        sent: more_if(is_request, sent),
        repeats: more_if(before.is_repeat(asking), repeats),
        unanswered: more_if(is_unanswered && !before.is_unanswered(), unanswered),
    }
}

impl StationWatch {
    /// That of the station with this link address, to which a request goes out so often at first.
    pub(crate) fn new(tries: u64, address: u16) -> StationWatch
        ensures { result ≡ spec.new_station tries address }
    {
        StationWatch {
            address,
            tries,
            bit: None,
            sent: 0,
            served: None,
            link: LinkKnown::Nothing,
            since: 0,
            gaps: 0,
            requests: RequestCounts {
                sent: 0,
                repeats: 0,
                unanswered: 0,
            },
            logged: StationLogged::Nothing,
            asked: Limit::new(),
            up: Limit::new(),
            silent: Limit::new(),
            again: Limit::new(),
            down: Limit::new(),
            gap: Limit::new(),
        }
    }

    /// Its link address.
    pub fn address(&self) -> u16
        ensures { result ≡ self.now.address }
    {
        self.address
    }

    /// How it stands.
    pub fn standing(&self) -> StationStanding
        ensures { result ≡ spec.standing_of self.now }
    {
        if self.sent == 0 {
            StationStanding::NotAsked
        } else if self.is_unanswered() {
            StationStanding::Silent
        } else {
            match self.link {
                LinkKnown::Nothing => StationStanding::Asked,
                LinkKnown::Up => StationStanding::Up,
                LinkKnown::Down => StationStanding::Down,
            }
        }
    }

    /// Since when it stands so, in ms.
    pub fn since(&self) -> u64
        ensures { result ≡ self.now.since }
    {
        self.since
    }

    /// How often reports of it may have been lost.
    pub fn gaps(&self) -> u64
        ensures { result ≡ self.now.gaps }
    {
        self.gaps
    }

    /// What was counted of the requests to it.
    pub fn requests(&self) -> RequestCounts
        ensures { result ≡ self.now.requests }
    {
        self.requests
    }

    /// A request goes out to the station with this link address.
    fn note_request(&mut self, address: u16, asking: Asking, now: u64)
        ensures { self.new ≡ spec.after_request address asking now self.old }
    {
        if self.address == address {
            let _line = self.ask(asking, now);
        }
    }

    /// Whether the request has gone out already.
    pub(crate) fn is_repeat(&self, asking: Asking) -> bool
        ensures { result ≡ spec.is_repeat asking self.now }
    {
        match (asking, self.bit) {
            (Asking::Counted(bit), Some(before)) => before == bit,
            _ => false,
        }
    }

    /// How often the latest request has gone out.
    fn count(&mut self, asking: Asking)
        ensures { self.new ≡ spec.counting asking self.old }
    {
        match asking {
            Asking::Counted(bit) => {
                // The bit of the one before: it wasn't answered, and goes out again
                // (docs/DECISIONS.md, "`run --log` is a port around the port").
                self.sent = self.sent_once_more(is_again(self.bit, bit));
                self.bit = Some(bit);
                if is_other(self.served, bit) {
                    self.link = LinkKnown::Up;
                }
                self.served = Some(bit);
            }
            Asking::Status => {
                // From the last service on: each further one says that the station is still down.
                self.sent = self.sent_once_more(self.bit.is_none());
                self.bit = None;
                // Of a station whose link is up the status is asked only behind a start, before it
                // has answered a service (docs/DECISIONS.md, "A station that was restarted, too").
                if let LinkKnown::Up = self.link {
                    self.link = LinkKnown::Down;
                }
            }
            Asking::Reset => {
                if self.served.is_some() {
                    self.link = LinkKnown::Down;
                }
                self.served = None;
            }
            Asking::Missed => self.gaps = self.gaps.saturating_add(1),
            Asking::Other => {}
        }
    }

    /// The same, and since when it stands so.
    fn count_at(&mut self, asking: Asking, now: u64)
        ensures { self.new ≡ spec.counted asking now self.old }
    {
        let before = *self;
        self.count(asking);
        if !is_same(before.standing(), self.standing()) {
            self.since = now;
        }
        self.requests = requests_after(asking, &before, self.is_unanswered());
    }

    /// How often a request has gone out, which is the one before or another one.
    fn sent_once_more(&self, is_again: bool) -> u64
        ensures { result ≡ (if is_again then one_more self.now.sent else 1) }
    {
        if is_again {
            self.sent.saturating_add(1)
        } else {
            1
        }
    }

    /// A request went out more often than a station that is there lets it.
    fn is_unanswered(&self) -> bool
        ensures { result ≡ spec.is_unanswered self.now }
    {
        self.sent > self.tries
    }

    /// That it doesn't answer, if it doesn't.
    fn silence(&mut self, is_silent: bool, logged: StationLogged, now: u64) -> Option<LogLine>
        ensures { (self.new, result) ≡ spec.silent_by is_silent logged now self.old }
    {
        if !is_silent {
            return None;
        }
        let line = changed(Note::Silent(self.address), &mut self.silent, now)?;
        self.logged = logged;
        Some(line)
    }

    /// It was logged that it doesn't answer, and its status is asked.
    fn ask_unanswered(&mut self, now: u64) -> Option<LogLine>
        ensures { (self.new, result)
            ≡ spec.unanswered_by (spec.is_unanswered self.old) now self.old }
    {
        if !self.is_unanswered() {
            return None;
        }
        let is_minute = self.silent.is_minute_after(now);
        self.silence(is_minute, StationLogged::Unanswered, now)
    }

    /// It didn't answer any more, and a counted request goes out to it.
    fn ask_silent(&mut self, now: u64) -> Option<LogLine>
        ensures { (self.new, result)
            ≡ spec.again_by (spec.is_unanswered self.old) self.old.link now self.old }
    {
        if self.is_unanswered() {
            return self.still_silence(StationLogged::Silent, now);
        }
        if !matches!(self.link, LinkKnown::Up) {
            return None;
        }
        let line = changed(Note::Again(self.address), &mut self.again, now)?;
        self.logged = StationLogged::Up;
        Some(line)
    }

    /// The same service goes out still, so its link is held; a line a minute.
    fn still_silence(&mut self, logged: StationLogged, now: u64) -> Option<LogLine>
        ensures { (self.new, result)
            ≡ spec.still_by (is_minute_after self.old.silent.logged now) logged now self.old }
    {
        if !self.silent.is_minute_after(now) {
            return None;
        }
        // With `silence = "reset"` its status is asked long before (docs/DECISIONS.md, "A hint
        // while a link is held").
        let line = changed(Note::StillSilent(self.address), &mut self.silent, now)?;
        self.logged = logged;
        Some(line)
    }

    /// It isn't logged as up, and a counted request goes out to it.
    fn ask_first(&mut self, now: u64) -> Option<LogLine>
        ensures { (self.new, result)
            ≡ spec.first_by self.old.link (spec.is_unanswered self.old) now self.old }
    {
        if let LinkKnown::Up = self.link {
            let line = changed(Note::Up(self.address), &mut self.up, now)?;
            self.logged = StationLogged::Up;
            return Some(line);
        }
        if !self.is_unanswered() {
            return None;
        }
        match self.logged {
            StationLogged::Unanswered => self.still_silence(StationLogged::Unanswered, now),
            _ => self.silence(true, StationLogged::Unanswered, now),
        }
    }

    /// A counted request goes out to it.
    fn ask_service(&mut self, now: u64) -> Option<LogLine>
        ensures { (self.new, result) ≡ spec.service_by self.old.logged now self.old }
    {
        match self.logged {
            StationLogged::Up => self.silence(self.is_unanswered(), StationLogged::Silent, now),
            StationLogged::Silent => self.ask_silent(now),
            _ => self.ask_first(now),
        }
    }

    /// Its link is down.
    fn go_down(&mut self, now: u64) -> Option<LogLine>
        ensures { (self.new, result) ≡ spec.logged_down now self.old }
    {
        let line = changed(Note::Down(self.address), &mut self.down, now)?;
        self.logged = StationLogged::Down;
        Some(line)
    }

    /// Its status is asked.
    fn ask_status(&mut self, now: u64) -> Option<LogLine>
        ensures { (self.new, result) ≡ spec.status_by self.old.logged now self.old }
    {
        match self.logged {
            StationLogged::Nothing => {
                let line = changed(Note::Asked(self.address), &mut self.asked, now)?;
                self.logged = StationLogged::Asked;
                Some(line)
            }
            StationLogged::Up | StationLogged::Silent => self.go_down(now),
            StationLogged::Asked | StationLogged::Down => {
                self.silence(self.is_unanswered(), StationLogged::Unanswered, now)
            }
            StationLogged::Unanswered => self.ask_unanswered(now),
        }
    }

    /// Its link is reset, of which this was known before.
    fn ask_reset(&mut self, was: LinkKnown, now: u64) -> Option<LogLine>
        ensures { (self.new, result) ≡ spec.reset_by was self.old.link now self.old }
    {
        match (was, self.link) {
            (LinkKnown::Nothing, LinkKnown::Down) => self.go_down(now),
            _ => None,
        }
    }

    /// A request goes out to it.
    fn ask(&mut self, asking: Asking, now: u64) -> Option<LogLine>
        ensures { (self.new, result) ≡ spec.station_asked asking now self.old }
    {
        let was = self.link;
        self.count_at(asking, now);
        match asking {
            Asking::Status => self.ask_status(now),
            Asking::Reset => self.ask_reset(was, now),
            Asking::Counted(_) => self.ask_service(now),
            Asking::Missed => happened(Note::Gap(self.address), &mut self.gap, now),
            Asking::Other => None,
        }
    }
}

/// What is logged of a request to the station with this link address.
fn line_of(stations: &[StationWatch], address: u16, asking: Asking, now: u64) -> Option<LogLine>
    ensures { result ≡ spec.line_in address asking now stations.now }
{
    for i in 0..stations.len() {
        // A copy: here only the line is wanted, and all stations are changed by `note_asked`.
        let mut station = stations[i];
        if station.address == address {
            return station.ask(asking, now);
        }
    }
    None
}

/// The request is noted at the station with this link address.
fn note_asked(stations: &mut [StationWatch], address: u16, asking: Asking, now: u64)
    ensures { stations.new ≡ map (spec.after_request address asking now) stations.old }
{
    for station in stations.iter_mut() {
        station.note_request(address, asking, now);
    }
}

/// This is asked of the station with this link address, or logged of it.
fn log_asking(
    stations: &mut [StationWatch],
    address: u16,
    asking: Asking,
    now: u64,
) -> Option<LogLine>
    ensures { (stations.new, result) ≡ spec.asking_logged address asking now stations.old }
{
    let line = line_of(stations, address, asking, now);
    note_asked(stations, address, asking, now);
    line
}

/// A request goes out.
pub(crate) fn ask(
    stations: &mut [StationWatch],
    size: LinkSize,
    octets: &[u8],
    now: u64,
) -> Option<LogLine>
    ensures { (stations.new, result) ≡ spec.asked size octets.now now stations.old }
{
    log_asking(stations, address_of(size, octets), asking_of(octets), now)
}

/// Reports of the station at this place may be lost.
pub(crate) fn gap(stations: &mut [StationWatch], place: usize, now: u64) -> Option<LogLine>
    ensures { (stations.new, result) ≡ spec.gap place now stations.old }
{
    let Some(station) = stations.get(place) else {
        return None;
    };
    let address = station.address;
    log_asking(stations, address, Asking::Missed, now)
}
