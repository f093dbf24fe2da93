//! Ends in memory, which note what happens at them, count what is asked of them and fail when they
//! are to.
ghost use Rattle.std.specs.Prelude.{◌≡◌, List, [], ◌∷◌, Some, IfSome};
ghost use Rattle.std.specs.declared.net.ip_addr.IpAddr.{IpAddr};
ghost use Rattle.live.specs.AllowLists.{Allows, RefusesStrangers, nobody};
ghost use Rattle.live.specs.OctetStreams.{FitsBuffer, looked, Dropped, Wrote};
ghost use Rattle.live.specs.Memory.{happenings, attempts_in, moments_in, shown_in};
ghost use Rattle.live.specs.Memory.{refused_in, refusals_of};

use crate::allow_list::AllowList;
use crate::clock::Timed;
use crate::ends::{Accepted, Got, Listener, OctetStream, RefusedPeers, RunClock};
use gateway::{Action, History, Next};
use std::net::{IpAddr, Ipv4Addr};

/// What no octets of a buffer are noted with.
const NO_OCTETS: [u8; 1024] = [0; 1024];

/// What has happened at a stream, with a look that found this.
fn with_look(log: &History, got: Got, buf: &[u8; 1024]) -> History
    ensures { happenings result.entries ≡ looked got buf.now ∷ happenings log.now.entries }
{
    match got {
        Got::Octets(len) => log.came(&Next::Line(0, len), buf),
        Got::Quiet => log.came(&Next::Tick(0), buf),
        Got::Gone => log.came(&Next::Cut(0), buf),
    }
}

/// What has happened at a stream, with so many octets that were dropped.
fn with_drop(log: &History, count: u64) -> History
    ensures { happenings result.entries ≡ Dropped count ∷ happenings log.now.entries }
{
    log.came(&Next::Wall(0, count), &NO_OCTETS)
}

/// What has happened at a stream, with octets that were put on it.
fn with_write(log: &History, octets: &[u8], is_taken: bool) -> History
    ensures { happenings result.entries ≡ Wrote octets.now is_taken ∷ happenings log.now.entries }
{
    if is_taken {
        log.went(&1, &Action::Line(octets))
    } else {
        log.went(&0, &Action::Line(octets))
    }
}

/// A stream. Its reads find nothing, or one octet each, and it takes what is written, but for one
/// read and one write that fail.
#[derive(Drop)]
pub(crate) struct MemoryStream {
    has_octets: bool,
    /// Which read finds that the stream is gone, from 1; 0 for none.
    pub(crate) failing_read: u32,
    /// Which write isn't taken, from 1; 0 for none.
    pub(crate) failing_write: u32,
    /// How many octets wait at each write.
    pub(crate) waiting: u64,
    /// How often it was read.
    pub(crate) reads: u32,
    /// How often it was written to.
    pub(crate) writes: u32,
    /// What has happened at it.
    log: History,
}

impl MemoryStream {
    fn new(has_octets: bool) -> MemoryStream
        ensures { result.log.entries ≡ [] }
    {
        MemoryStream {
            has_octets,
            failing_read: 0,
            failing_write: 0,
            waiting: 0,
            reads: 0,
            writes: 0,
            log: History::new(),
        }
    }

    /// One whose reads find nothing.
    pub(crate) fn quiet() -> MemoryStream
        ensures { result.log.entries ≡ [] }
    {
        MemoryStream::new(false)
    }

    /// One whose reads find one octet each.
    pub(crate) fn busy() -> MemoryStream
        ensures { result.log.entries ≡ [] }
    {
        MemoryStream::new(true)
    }

    /// What a look finds.
    fn look(&mut self, buf: &mut [u8; 1024]) -> Got
        ensures fits { FitsBuffer result }
        ensures log { self.new.log ≡ self.old.log }
    {
        self.reads = self.reads.saturating_add(1);
        if self.reads == self.failing_read {
            return Got::Gone;
        }
        if self.has_octets {
            buf[0] = 0xE5;
            return Got::Octets(1);
        }
        Got::Quiet
    }
}

impl OctetStream for MemoryStream {
    ghost history = { λ stream. Some (happenings stream.log.entries) };

    fn read(&mut self, buf: &mut [u8; 1024]) -> Got {
        let got = self.look(buf);
        self.log = with_look(&self.log, got, buf);
        got
    }

    fn drop_waiting(&mut self) -> u64 {
        self.log = with_drop(&self.log, self.waiting);
        self.waiting
    }

    fn write(&mut self, octets: &[u8]) -> bool {
        self.writes = self.writes.saturating_add(1);
        let is_taken = self.writes != self.failing_write;
        self.log = with_write(&self.log, octets, is_taken);
        is_taken
    }
}

/// What has happened at a listener, with a look at it, or the tries of a dialler, with one that
/// ended.
pub(crate) fn with_attempt(log: &History, is_here: bool) -> History
    ensures attempts { attempts_in result.entries ≡ is_here ∷ attempts_in log.now.entries }
    ensures refused { (address : IpAddr) → refused_in address result.entries
        ≡ refused_in address log.now.entries }
{
    if is_here {
        log.came(&Next::Open(0), &NO_OCTETS)
    } else {
        log.came(&Next::Tick(0), &NO_OCTETS)
    }
}

/// With one more who was refused.
fn with_refusal(log: &History, address: IpAddr) -> History
    ensures refused { refused_in address result.entries
        ≡ address ∷ refused_in address log.now.entries }
    ensures attempts { attempts_in result.entries ≡ attempts_in log.now.entries }
{
    log.came(&Next::Cut(0), &NO_OCTETS)
}

/// A listener, at which one control centre waits at the most.
#[derive(Drop)]
pub(crate) struct MemoryListener {
    pub(crate) centre: Option<MemoryStream>,
    /// Where control centres connect from.
    address: IpAddr,
    refused: RefusedPeers,
    /// Whether a connection was accepted at each look, and who was refused.
    log: History,
}

impl MemoryListener {
    /// One at which this control centre waits, or none.
    pub(crate) fn new(centre: Option<MemoryStream>) -> MemoryListener
        ensures log { result.log.entries ≡ [] }
        ensures refused { result.refused ≡ nobody }
    {
        MemoryListener {
            centre,
            address: IpAddr::V4(Ipv4Addr::LOCALHOST),
            refused: RefusedPeers::nobody(),
            log: History::new(),
        }
    }

    /// The control centre, if one waits and is allowed. Nothing has happened at its stream yet.
    #[tactic(auto, using(crate::proofs::Refused::refuses_nobody, crate::proofs::Refused::refuses_one))]
    fn accept_allowed(&mut self, allow_list: &AllowList) -> Option<Accepted<MemoryStream>>
        ensures allowed { IfSome result (λ accepted. Allows allow_list.now accepted.address) }
        ensures fresh { IfSome result (λ accepted. accepted.stream.log.entries ≡ []) }
        ensures attempts { attempts_in self.new.log.entries ≡ attempts_in self.old.log.entries }
        ensures address { self.new.address ≡ self.old.address }
        ensures refused { RefusesStrangers allow_list.now (refusals_of self.old.address
            self.old.log.entries self.old.refused)
            (refusals_of self.old.address self.new.log.entries self.new.refused) }
    {
        let mut stream = self.centre.take()?;
        stream.log = History::new();
        let address = self.address;
        if allow_list.allows(address) {
            Some(Accepted { address, stream })
        } else {
            self.log = with_refusal(&self.log, address);
            self.refused.add(address);
            None
        }
    }
}

impl Listener for MemoryListener {
    type Stream = MemoryStream;

    ghost attempts = { λ listener. Some (attempts_in listener.log.entries) };

    ghost refusals = { λ listener. refusals_of listener.address listener.log.entries
        listener.refused };

    fn accept(&mut self, allow_list: &AllowList) -> Option<Accepted<MemoryStream>> {
        let accepted = self.accept_allowed(allow_list);
        self.log = with_attempt(&self.log, accepted.is_some());
        accepted
    }

    fn refused(&self) -> RefusedPeers {
        self.refused
    }
}

/// What the wall clock showed when the memory's clock began, in ms.
pub(crate) const WALL_MS: u64 = 1_795_000_000_000;

/// A clock that goes on by 1 ms at each reading.
#[derive(Drop)]
pub(crate) struct MemoryClock {
    now: u64,
    /// What it gave.
    log: History,
}

impl MemoryClock {
    /// One that begins at 0.
    pub(crate) fn new() -> MemoryClock
        ensures { result.log.entries ≡ [] }
    {
        MemoryClock {
            now: 0,
            log: History::new(),
        }
    }
}

impl Timed for MemoryClock {
    fn shown_ms(&self) -> u64 {
        self.now
    }
}

impl RunClock for MemoryClock {
    ghost moments = { λ clock. Some (moments_in clock.log.entries) };

    ghost walls = { λ clock. Some (shown_in clock.log.entries) };

    fn now_ms(&mut self) -> u64 {
        self.now = self.now.saturating_add(1);
        self.log = self.log.came(&Next::Tick(self.now), &NO_OCTETS);
        self.now
    }

    fn wall_ms(&mut self) -> u64 {
        let shown = WALL_MS.saturating_add(self.now);
        self.log = self.log.came(&Next::Wall(0, shown), &NO_OCTETS);
        shown
    }
}
