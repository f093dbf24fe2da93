//! The ends of a live run.
ghost use Rattle.std.specs.Prelude.{◌≡◌, List, Bool, Option, IfSome};
ghost use Rattle.live.specs.AllowLists.{nobody, one_more_refused};

use crate::allow_list::AllowList;
use crate::clock::Timed;
use std::io::ErrorKind;
use std::net::IpAddr;

/// What one look at a stream finds.
#[derive(Clone, Copy, Debug, PartialEq, Eq)]
pub enum Got {
    /// So many octets, at the front of the buffer: 1 to 1,024.
    Octets(usize),
    /// Nothing yet.
    Quiet,
    /// The stream is at its end, or broken.
    Gone,
}

/// Octets both ways. A stream that notes what happens at it adds each call, with the octets that it
/// gave or was handed; dropping it shuts it.
pub trait OctetStream: Drop {
    ghost use Rattle.live.specs.OctetStreams.{StreamHistory, FitsBuffer, looked, Dropped, Wrote};
    ghost use Rattle.live.specs.OctetStreams.{noted};
    ghost use Rattle.live.specs.declared.ends.Presence.{Presence};
    ghost use Rattle.std.specs.Prelude.{None};

    /// What has happened at it, the newest first, if it notes that.
    ghost history: { Self → StreamHistory };

    /// Whether it is there, if it says that.
    ghost presence: { Self → Option Presence } = { λ _. None };

    /// Looks once, without a long wait. Octets are put at the front of the buffer.
    fn read(&mut self, buf: &mut [u8; 1024]) -> Got
        ensures fits { FitsBuffer result }
        ensures noted { history self.new ≡ noted (history self.old) (looked result buf.new) };

    /// Drops what has come and wasn't read, without a wait. Answers how many octets that was.
    fn drop_waiting(&mut self) -> u64
        ensures noted { history self.new ≡ noted (history self.old) (Dropped result) }
        ensures stays { presence self.new ≡ presence self.old };

    /// Puts octets on it. `false` says that it didn't take them all.
    fn write(&mut self, octets: &[u8]) -> bool
        ensures noted { history self.new ≡ noted (history self.old) (Wrote octets.now result) }
        ensures stays { presence self.new ≡ presence self.old };
}

/// Why a connection is cut.
#[derive(Clone, Copy, PartialEq, Eq)]
pub enum CutCause {
    /// Its stream is at its end, or broken.
    Gone,
    /// It didn't take what was written to it.
    NotTaken,
    /// The run goes on after a restart, which it didn't outlive.
    Restarted,
}

/// Whether a stream is there.
#[derive(Clone, Copy, Debug, PartialEq, Eq)]
pub enum Presence {
    /// It isn't known yet: no try to reach it has ended.
    Untried,
    /// It isn't there: the cause is that of the latest try, if one has failed since it went.
    Away(Option<ErrorKind>),
    /// Requests went out to it and nothing came for so long that it was closed, or one that was
    /// reached behind that has given nothing yet.
    Silent,
    /// It is there, and nothing has come from it yet.
    There,
    /// It is there, and octets have come from it.
    Receiving,
}

/// A stream that may be away, and says whether it is.
pub trait Reached: OctetStream {
    ghost use Rattle.std.specs.Prelude.{◌≡◌, Some};

    /// Whether it is there.
    fn presence(&self) -> Presence
        ensures { Self.presence self.now ≡ Some result };
}

/// Who was accepted.
#[derive(Drop)]
pub struct Accepted<S: OctetStream> {
    /// The address of the other end.
    pub address: IpAddr,
    /// What octets go over.
    pub stream: S,
}

/// Where connections come from.
pub trait Listener {
    ghost use Rattle.live.specs.OctetStreams.{Attempts, IsNew, attempted};
    ghost use Rattle.live.specs.AllowLists.{Allows, Refusals, RefusesStrangers};
    ghost use Rattle.std.specs.Option.{is_some};

    type Stream: OctetStream;

    /// Whether a connection was accepted at each look, the newest first, if it notes that.
    ghost attempts: { Self → Attempts };

    /// Those whom it refused, the newest first, if it notes them; and what it says of them.
    ghost refusals: { Self → Refusals };

    /// Looks once for a new connection, without a wait, and accepts only addresses of this list:
    /// any other is refused at once. Nothing has happened at the stream yet.
    fn accept(&mut self, allow_list: &AllowList) -> Option<Accepted<Self::Stream>>
        ensures allowed { IfSome result (λ accepted. Allows allow_list.now accepted.address) }
        ensures fresh { IfSome result (λ accepted. IsNew (Self.Stream.history accepted.stream)) }
        ensures noted { attempts self.new ≡ attempted (attempts self.old) (is_some result) }
        ensures refused { RefusesStrangers allow_list.now (refusals self.old)
            (refusals self.new) };

    /// How many were refused so far, and the address of the last of them.
    // `run --log` logs this (docs/DECISIONS.md, "`Listener::refused`").
    fn refused(&self) -> RefusedPeers
        ensures { result ≡ (refusals self.now).said };
}

/// Those whom a listener refused.
#[derive(Clone, Copy, PartialEq, Eq)]
pub struct RefusedPeers {
    /// How many they are.
    pub count: u64,
    /// The address of the last one.
    pub last: Option<IpAddr>,
}

impl RefusedPeers {
    /// Nobody was refused.
    pub(crate) fn nobody() -> RefusedPeers
        ensures { result ≡ nobody }
    {
        RefusedPeers {
            count: 0,
            last: None,
        }
    }

    /// Who has this address is refused.
    pub(crate) fn add(&mut self, address: IpAddr)
        ensures { self.new ≡ one_more_refused address self.old }
    {
        self.count = self.count.saturating_add(1);
        self.last = Some(address);
    }
}

/// A clock that begins anywhere and never goes back, and the wall clock beside it, which people
/// set. One that notes what it gave adds each moment, and each number that the wall clock showed.
pub trait RunClock: Timed {
    ghost use Rattle.live.specs.Timing.{Moments, read_at};

    /// The moments that it gave, the newest first, if it notes them.
    ghost moments: { Self → Moments };

    /// What the wall clock showed, the newest first, if it notes that.
    ghost walls: { Self → Moments };

    /// The moment, in milliseconds.
    fn now_ms(&mut self) -> u64
        ensures noted { moments self.new ≡ read_at (moments self.old) result }
        ensures others { walls self.new ≡ walls self.old };

    /// What the wall clock shows, in milliseconds since 1970-01-01 UTC. It may go back.
    fn wall_ms(&mut self) -> u64
        ensures noted { walls self.new ≡ read_at (walls self.old) result }
        ensures others { moments self.new ≡ moments self.old };
}
