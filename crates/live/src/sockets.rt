//! Ends on the system's sockets and clock.
//!
//! Only a look at the line waits, for some milliseconds, and again behind octets that don't end a
//! frame; the listener and a connection are asked without a wait. So a frame of the line is seen at
//! once, octets of a control centre after one look at a quiet line.
ghost use Rattle.std.specs.Option.{is_some};
ghost use Rattle.std.specs.Prelude.{◌≡◌, ◌≤◌, IfOk, IfSome, None, Some, true, false, option_map};
ghost use Rattle.std.specs.Prelude.{Ok, Result};
ghost use Rattle.std.specs.Net.Addr.{IsCanonicalOf, MatchIp};
ghost use Rattle.std.specs.Net.Socket.{socket_ip};
ghost use Rattle.live.specs.AllowLists.{Allows, IsPlain, RefusesStrangers, nobody};
ghost use Rattle.live.specs.Arrivals.{AcceptsNewest, TakesOne, TakesWaiting};
ghost use Rattle.live.specs.Clocks.{BeginsAt, GoesOn, ShowsWall, StartsNow, moment_by};
ghost use Rattle.live.specs.OctetStreams.{FitsBuffer, IsNew, attempted, noted, looked, Dropped};
ghost use Rattle.live.specs.OctetStreams.{Wrote};
ghost use Rattle.live.specs.Streams.{ReadsOnce, ReadsLine, DropsWaiting, WritesAll, WritesInTwo};
ghost use Rattle.live.specs.Streams.{Waits, as_centre, as_line, called};
ghost use Rattle.live.specs.Telling.{Tells, told_unless};
ghost use Rattle.live.specs.Reaching.{AsksOn, ConnectsAt, DialsAt, DialsHost, Ends, GoesOnAsIs};
ghost use Rattle.live.specs.Reaching.{OpensAt, ReachesAt, ReachesHost, ReachesOne, Showed, Slept};
ghost use Rattle.live.specs.Reaching.{TriesOn, is_in_time, step_noted, unfound};
ghost use Rattle.std.specs.declared.io.Error.{Error};
ghost use Rattle.std.specs.declared.time.Instant.{Instant};
ghost use Rattle.live.specs.Redial.{IfReached, ended};
ghost use Rattle.std.specs.Prelude.{◌⊎◌, ◌++◌, List, ℕ, codes};
ghost use Rattle.live.specs.declared.ends.Presence.TheVariants.{There};

use crate::allow_list::AllowList;
use crate::arrivals::{Arrived, SystemListener};
use crate::clock::{HostInstants, SystemInstants, Timed};
use crate::ends::{
    Accepted, Got, Listener, OctetStream, Presence, Reached, RefusedPeers, RunClock,
};
use crate::reach::{Connecting, HostReach, Standing, SystemReach};
use crate::redial::{Dialled, Dialler};
use crate::stream::{
    Setting, SocketStream, SystemStream, drop_waiting, read_line, read_once, write_in_two,
    write_once,
};
use std::io::{Eprint, ErrorKind};
use std::marker::Model;
use std::net::{
    IpAddr, Net, OpenListener, OpenStream, SocketAddr, TcpListener, TcpStream, ToSocketAddrs,
};
use std::os::unix::net::UnixStream;
use std::time::{Duration, Instant, SystemTime};
use std::{io, thread};

/// How long a look at the line waits, in ms. A system may round it up to some ms.
// Nothing else in the gateway's loop waits: so it doesn't spin, and a control centre's octets are
// seen that soon.
const LOOK_MS: u64 = 1;

/// How long a write may wait, in ms.
// Far below the time of an answer on a serial line: a peer that takes nothing holds up no other.
const WRITE_MS: u64 = 20;

/// How long it is tried to reach the line, in ms, at each address of its host.
// A connect that is lost is sent again by the system after one second and after three.
const REACH_MS: u64 = 5000;

/// How many addresses of a host are tried at the most: the system gives no more.
const MOST_ADDRESSES: u32 = 32;

/// How many connections are accepted at the most at one look at the listener.
// An end to which somebody connects without a pause; who is left is accepted at the next look.
const MOST_ACCEPTED: u32 = 256;

/// The line: a serial device server, over a stream of the system, by TCP or by a Unix socket. Its
/// calls wait, each as long as its timeout says.
#[derive(Drop)]
pub struct LineSocket<S: SystemStream + Drop = SocketStream> {
    stream: S,
}

impl<S: SystemStream + Drop> Model for LineSocket<S> {
    ghost use Rattle.live.specs.Streams.{Calls};

    ghost Value = { Calls };

    ghost view = { λ s. S.calls s.stream };
}

impl<S: SystemStream + Drop> LineSocket<S> {
    /// Over this stream: requests go out at once, a look waits for 1 ms at the most, a write for
    /// 20.
    pub(crate) fn over(mut stream: S) -> io::Result<LineSocket<S>>
        ensures { IfOk result (λ line. line ≡ as_line (S.calls stream)) }
    {
        // A request is one small frame, which the system would hold back to join it with others.
        stream.set(Setting::SendsAtOnce)?;
        stream.set(Setting::ReadsWithin(LOOK_MS))?;
        stream.set(Setting::WritesWithin(WRITE_MS))?;
        Ok(LineSocket { stream })
    }

    /// The same over a stream whose calls don't wait yet.
    pub(crate) fn waiting(mut stream: S) -> io::Result<LineSocket<S>>
        ensures { IfOk result (λ line. line ≡ as_line (called (S.calls stream) (Waits true true))) }
    {
        stream.set(Setting::Waiting(true))?;
        LineSocket::over(stream)
    }
}

impl<S: SystemStream + Drop> OctetStream for LineSocket<S> {
    ghost use Rattle.std.specs.Prelude.{Some};
    ghost use Rattle.live.specs.declared.ends.Presence.TheVariants.{There};

    ghost history = { λ _. None };

    // It was reached before the run, which ends when it is gone.
    ghost presence = { λ _. Some There };

    fn read(&mut self, buf: &mut [u8; 1024]) -> Got
        ensures fits { FitsBuffer result }
        ensures noted { None ≡ noted None (looked result buf.new) }
        ensures reads { ReadsLine self.old result buf.new self.new }
    {
        read_line(&mut self.stream, buf)
    }

    fn drop_waiting(&mut self) -> u64
        ensures noted { None ≡ noted None (Dropped result) }
        ensures stays { Some There ≡ Some There }
        ensures drops { DropsWaiting self.old result self.new }
    {
        drop_waiting(&mut self.stream)
    }

    fn write(&mut self, octets: &[u8]) -> bool
        ensures noted { None ≡ noted None (Wrote octets.now result) }
        ensures stays { Some There ≡ Some There }
        ensures writes { WritesAll self.old octets.now result self.new }
    {
        write_once(&mut self.stream, octets)
    }
}

impl<S: SystemStream + Drop> Reached for LineSocket<S> {
    fn presence(&self) -> Presence
        ensures { result ≡ There }
    {
        Presence::There
    }
}

/// Reaches the line at `tcp:HOST:PORT` or `unix:PATH` again and again, without a wait: a connect
/// goes on between the looks, for some seconds at each address that HOST has. A name is looked up
/// at each try, for which the system may wait.
#[derive(Drop)]
pub struct LineDialler<'a, R, W: SystemReach + Drop = HostReach> {
    rt: &'a R,
    place: &'a str,
    reach: W,
    connecting: Option<Connecting>,
}

impl<'a, R: Net<Stream = TcpStream> + std::rt::Clock> LineDialler<'a, R> {
    /// One for the line at this place, which is tried by the first call of `dial`.
    pub fn new(rt: &'a R, place: &'a str) -> LineDialler<'a, R>
        ensures place { result.place.now ≡ place.entry.now }
        ensures idle { result.connecting ≡ None }
    {
        LineDialler {
            rt,
            place,
            reach: HostReach::new(),
            connecting: None,
        }
    }
}

impl<'a, R: Net<Stream = TcpStream> + std::rt::Clock, W: SystemReach + Drop> LineDialler<'a, R, W> {
    /// Connects to the place now, and waits for that, some seconds for each address of its host.
    ///
    /// # Errors
    ///
    /// Those of the system, and `InvalidInput` if the place is neither.
    pub fn reach(&mut self) -> io::Result<LineSocket>
        ensures place { self.new.place.now ≡ self.old.place.now }
        ensures path { (path : List ℕ) → self.old.place.now ≡ codes "unix:" ++ path →
            ReachesAt path result (W.steps self.old.reach) (W.steps self.new.reach) }
        ensures host { (host : List ℕ) → self.old.place.now ≡ codes "tcp:" ++ host →
            ReachesHost host result (W.steps self.old.reach) (W.steps self.new.reach) }
    {
        if let Some(path) = self.place.strip_prefix("unix:") {
            let stream = self.reach.connect_at(self.rt, path)?;
            return self.reach.open(stream);
        }
        let Some(host) = self.place.strip_prefix("tcp:") else {
            return Err(io::Error::from(ErrorKind::InvalidInput));
        };
        self.reach.look_up(self.rt, host)?;
        self.reach_one()
    }

    /// Connects to the first address that answers, each in its time.
    fn reach_one(&mut self) -> io::Result<LineSocket>
        ensures place { self.new.place.now ≡ self.old.place.now }
        ensures reaches { ReachesOne result (W.steps self.old.reach) (W.steps self.new.reach) }
    {
        // What is answered for a name that has no address.
        let mut last = io::Error::from(ErrorKind::NotFound);
        for _ in 0..MOST_ADDRESSES {
            let Some(address) = self.reach.next_address() else {
                return Err(last);
            };
            match self.reach.connect(self.rt, address, REACH_MS) {
                Ok(stream) => return self.reach.open(stream),
                Err(fault) => last = fault,
            }
        }
        Err(last)
    }

    /// Begins a connect to the next address that lets it. Without one the try has failed for the
    /// cause at the last address, or for this first one.
    fn connect_next(&mut self, first: ErrorKind) -> Dialled<LineSocket>
        ensures place { self.new.place.now ≡ self.old.place.now }
        ensures tries { TriesOn result first self.old.connecting (W.steps self.old.reach)
            self.new.connecting (W.steps self.new.reach) }
    {
        let mut cause = first;
        for _ in 0..MOST_ADDRESSES {
            let Some(address) = self.reach.next_address() else {
                return Dialled::Failed(cause);
            };
            match self.connect_at(address) {
                Ok(connecting) => {
                    self.connecting = Some(connecting);
                    return Dialled::Pending;
                }
                Err(fault) => cause = fault.kind(),
            }
        }
        Dialled::Failed(cause)
    }

    /// Begins a connect to this address.
    fn connect_at(&mut self, address: SocketAddr) -> io::Result<Connecting>
        ensures place { self.new.place.now ≡ self.old.place.now }
        ensures connecting { self.new.connecting ≡ self.old.connecting }
        ensures connects { ConnectsAt address (W.steps self.old.reach) result
            (W.steps self.new.reach) }
    {
        let stream = self.reach.begin(self.rt, address)?;
        let since = self.reach.now(self.rt)?;
        Ok(Connecting { stream, since })
    }

    /// Connects to the socket at this path.
    fn connect_path(&mut self, path: &str) -> io::Result<LineSocket>
        ensures place { self.new.place.now ≡ self.old.place.now }
        ensures connecting { self.new.connecting ≡ self.old.connecting }
        ensures opens { OpensAt path.now result (W.steps self.old.reach)
            (W.steps self.new.reach) }
    {
        let stream = self.reach.begin_at(self.rt, path)?;
        self.reach.open(stream)
    }

    /// What has become of this connect, which is under way.
    fn go_on(&mut self, connecting: Connecting) -> Dialled<LineSocket>
        requires { self.old.connecting ≡ None }
        ensures place { self.new.place.now ≡ self.old.place.now }
        ensures goes_on { GoesOnAsIs connecting (W.steps self.old.reach) result self.new.connecting
            (W.steps self.new.reach) }
    {
        if self.is_in_time(&connecting) {
            self.connecting = Some(connecting);
            return Dialled::Pending;
        }
        self.connect_next(ErrorKind::TimedOut)
    }

    /// Its time isn't over.
    fn is_in_time(&mut self, connecting: &Connecting) -> bool
        ensures place { self.new.place.now ≡ self.old.place.now }
        ensures connecting { self.new.connecting ≡ self.old.connecting }
        ensures shown { (shown : Result Instant Error)
            × (W.steps self.new.reach ≡ step_noted (Showed shown) (W.steps self.old.reach))
            × (result ≡ is_in_time connecting.now.since shown) }
    {
        match self.reach.now(self.rt) {
            Ok(now) => now.duration_since(connecting.since) <= Duration::from_millis(REACH_MS),
            Err(_) => false,
        }
    }
}

/// What became of a try that has ended.
fn dialled(line: io::Result<LineSocket>) -> Dialled<LineSocket>
    ensures { Ends result line }
{
    match line {
        Ok(line) => Dialled::Reached(line),
        Err(fault) => Dialled::Failed(fault.kind()),
    }
}

/// Why no connect goes on if a host that was looked up so has no address.
fn unfound(found: io::Result<()>) -> ErrorKind
    ensures { result ≡ unfound found }
{
    match found {
        Ok(()) => ErrorKind::NotFound,
        Err(fault) => fault.kind(),
    }
}

impl<R: Net<Stream = TcpStream> + std::rt::Clock, W: SystemReach + Drop> Dialler
    for LineDialler<'_, R, W> {
    type Stream = LineSocket;

    ghost tries = { λ _. None };

    fn dial(&mut self) -> Dialled<LineSocket>
        ensures fresh { IfReached result (λ _. IsNew None) }
        ensures noted { None ≡ ended None result }
        ensures place { self.new.place.now ≡ self.old.place.now }
        ensures path { (path : List ℕ) → self.old.place.now ≡ codes "unix:" ++ path →
            DialsAt path result (W.steps self.old.reach) (W.steps self.new.reach)
            × (self.new.connecting ≡ self.old.connecting) }
        ensures host { (host : List ℕ) → self.old.place.now ≡ codes "tcp:" ++ host →
            DialsHost host result self.old.connecting (W.steps self.old.reach) self.new.connecting
            (W.steps self.new.reach) }
    {
        if let Some(path) = self.place.strip_prefix("unix:") {
            return dialled(self.connect_path(path));
        }
        let Some(host) = self.place.strip_prefix("tcp:") else {
            return Dialled::Failed(ErrorKind::InvalidInput);
        };
        let cause = unfound(self.reach.look_up(self.rt, host));
        self.connect_next(cause)
    }

    fn ask(&mut self) -> Dialled<LineSocket>
        ensures fresh { IfReached result (λ _. IsNew None) }
        ensures noted { None ≡ ended None result }
        ensures place { self.new.place.now ≡ self.old.place.now }
        ensures asks { AsksOn self.old.connecting (W.steps self.old.reach) result
            self.new.connecting (W.steps self.new.reach) }
    {
        let Some(connecting) = self.connecting.take() else {
            return Dialled::Failed(ErrorKind::NotConnected);
        };
        match self.reach.standing(&connecting.stream) {
            Standing::Through => dialled(self.reach.open(connecting.stream)),
            Standing::UnderWay => self.go_on(connecting),
            Standing::Broken(cause) => self.connect_next(cause),
        }
    }

    fn pause(&mut self)
        ensures place { self.new.place.now ≡ self.old.place.now }
        ensures connecting { self.new.connecting ≡ self.old.connecting }
        ensures slept { W.steps self.new.reach ≡ step_noted (Slept 1) (W.steps self.old.reach) }
    {
        self.reach.pause(self.rt, LOOK_MS);
    }
}

/// The connection of a control centre, over a stream of the system. Its reads don't wait; a write
/// waits for 20 ms at the most, if the system has no room.
#[derive(Drop)]
pub struct CentreSocket<S: SystemStream + Drop = SocketStream> {
    stream: S,
}

impl<S: SystemStream + Drop> Model for CentreSocket<S> {
    ghost use Rattle.live.specs.Streams.{Calls};

    ghost Value = { Calls };

    ghost view = { λ s. S.calls s.stream };
}

impl<S: SystemStream + Drop> CentreSocket<S> {
    /// Over this stream: what is written goes out at once, and only a write that is tried again
    /// waits, for 20 ms at the most.
    pub(crate) fn new(mut stream: S) -> io::Result<CentreSocket<S>>
        ensures { IfOk result (λ socket. socket ≡ as_centre (S.calls stream)) }
    {
        stream.set(Setting::SendsAtOnce)?;
        stream.set(Setting::WritesWithin(WRITE_MS))?;
        // Of use only if a write had waited and the stream then refused to wait no more.
        stream.set(Setting::ReadsWithin(LOOK_MS))?;
        stream.set(Setting::Waiting(false))?;
        Ok(CentreSocket { stream })
    }
}

impl<S: SystemStream + Drop> OctetStream for CentreSocket<S> {
    ghost history = { λ _. None };

    fn read(&mut self, buf: &mut [u8; 1024]) -> Got
        ensures fits { FitsBuffer result }
        ensures noted { None ≡ noted None (looked result buf.new) }
        ensures reads { ReadsOnce self.old result buf.new self.new }
    {
        read_once(&mut self.stream, buf)
    }

    /// A control centre's octets are all received.
    fn drop_waiting(&mut self) -> u64
        ensures noted { None ≡ noted None (Dropped result) }
        ensures none { result ≡ 0 }
        ensures same { self.new ≡ self.old }
    {
        0
    }

    fn write(&mut self, octets: &[u8]) -> bool
        ensures noted { None ≡ noted None (Wrote octets.now result) }
        ensures writes { WritesInTwo self.old octets.now result self.new }
    {
        write_in_two(&mut self.stream, octets)
    }
}

/// The connection of who is on this machine, over a stream of the system, by a Unix socket. Its
/// calls don't wait.
#[derive(Drop)]
pub struct LocalSocket<S: SystemStream + Drop = SocketStream> {
    stream: S,
}

impl<S: SystemStream + Drop> Model for LocalSocket<S> {
    ghost use Rattle.live.specs.Streams.{Calls};

    ghost Value = { Calls };

    ghost view = { λ s. S.calls s.stream };
}

impl LocalSocket {
    /// Over this stream, whose calls wait no more then.
    ///
    /// # Errors
    ///
    /// Those of the system.
    pub fn new(stream: UnixStream) -> io::Result<LocalSocket> {
        LocalSocket::over(SocketStream::Unix(stream))
    }
}

impl<S: SystemStream + Drop> LocalSocket<S> {
    fn over(mut stream: S) -> io::Result<LocalSocket<S>>
        ensures { IfOk result (λ socket. socket ≡ called (S.calls stream) (Waits false true)) }
    {
        stream.set(Setting::Waiting(false))?;
        Ok(LocalSocket { stream })
    }
}

impl<S: SystemStream + Drop> OctetStream for LocalSocket<S> {
    ghost history = { λ _. None };

    fn read(&mut self, buf: &mut [u8; 1024]) -> Got
        ensures fits { FitsBuffer result }
        ensures noted { None ≡ noted None (looked result buf.new) }
        ensures reads { ReadsOnce self.old result buf.new self.new }
    {
        read_once(&mut self.stream, buf)
    }

    /// Its octets are all received.
    fn drop_waiting(&mut self) -> u64
        ensures noted { None ≡ noted None (Dropped result) }
        ensures none { result ≡ 0 }
        ensures same { self.new ≡ self.old }
    {
        0
    }

    fn write(&mut self, octets: &[u8]) -> bool
        ensures noted { None ≡ noted None (Wrote octets.now result) }
        ensures writes { WritesAll self.old octets.now result self.new }
    {
        write_once(&mut self.stream, octets)
    }
}

/// Whose address this is: an IPv4 address that is written as an IPv6 one is that IPv4 address.
#[tactic(auto, using(crate::proofs::Plain::plain_of))]
fn peer_of(address: SocketAddr) -> IpAddr
    ensures same { MatchIp (socket_ip address) (λ _. result ≡ socket_ip address)
        (λ a. IsCanonicalOf a result) }
    ensures plain { IsPlain result }
{
    address.ip().to_canonical()
}

/// A TCP listener that doesn't wait. It accepts all who wait and are on the allow list, and the
/// last of them stays; it refuses the others.
#[derive(Drop)]
pub struct CentreListener<'a, R, T: SystemListener + Drop = TcpListener> {
    rt: &'a R,
    listener: T,
    /// That no connection can be accepted was said, and none has been accepted since.
    is_shut: bool,
    refused: RefusedPeers,
}

impl<
    'a,
    R: Net<Listener = TcpListener, Stream = TcpStream> + Eprint,
    T: SystemListener + Drop,
> CentreListener<'a, R, T> {
    /// Listens at `HOST:PORT`, and waits at no call.
    ///
    /// # Errors
    ///
    /// Those of the system.
    pub fn listen(rt: &'a R, address: &str) -> io::Result<CentreListener<'a, R, T>>
        ensures open { IfOk result (λ listener. listener.is_shut ≡ false) }
        ensures nobody { IfOk result (λ listener. listener.refused ≡ nobody) }
        ensures bound { IfOk result (λ listener. IfSome (T.binding listener.listener)
            (λ noted. noted ≡ record { place = address.now; is_waiting = false })) }
    {
        let mut listener = T::bind(rt, address)?;
        listener.set_waiting(false)?;
        Ok(CentreListener {
            rt,
            listener,
            is_shut: false,
            refused: RefusedPeers::nobody(),
        })
    }
}

impl<R> CentreListener<'_, R> {
    /// Where it listens, as the system says. No clause of the kit's call says where that is.
    ///
    /// # Errors
    ///
    /// Those of the system.
    pub fn address(&self) -> io::Result<SocketAddr> {
        self.listener.local_addr()
    }
}

impl<R: Eprint, T: SystemListener + Drop> CentreListener<'_, R, T> {
    /// Says once that no connection can be accepted, as with too few descriptors.
    fn say_shut(&mut self, fault: &io::Error)
        ensures said { record { told = T.told self.new.listener; is_shut = self.new.is_shut }
            ≡ told_unless self.old.is_shut fault.now
            (record { told = T.told self.old.listener; is_shut = self.old.is_shut }) }
        ensures arrivals { T.arrivals self.new.listener ≡ T.arrivals self.old.listener }
        ensures refused { self.new.refused ≡ self.old.refused }
        ensures unopened { T.opened self.new.listener ≡ T.opened self.old.listener }
    {
        if !self.is_shut {
            self.listener.tell(self.rt, fault);
            self.is_shut = true;
        }
    }

    /// Asks for the next who waits. Who may not connect is refused.
    fn take_one(&mut self, allow_list: &AllowList) -> Arrived
        ensures tells { Tells (T.arrivals self.old.listener)
            (record { told = T.told self.old.listener; is_shut = self.old.is_shut })
            (T.arrivals self.new.listener)
            (record { told = T.told self.new.listener; is_shut = self.new.is_shut }) }
        ensures takes { TakesOne allow_list.now (T.arrivals self.old.listener)
            self.old.refused result (T.arrivals self.new.listener) self.new.refused }
        ensures unopened { T.opened self.new.listener ≡ T.opened self.old.listener }
    {
        match self.listener.accept_next() {
            Ok((stream, address)) => {
                self.is_shut = false;
                // Addresses and no names, before the open connection is touched
                // (docs/DECISIONS.md, "`run --allow` compares addresses").
                let address = peer_of(address);
                if allow_list.allows(address) {
                    return Arrived::Allowed(address, stream);
                }
                self.refused.add(address);
                Arrived::Other
            }
            Err(fault) => match fault.kind() {
                // Who came has gone again.
                ErrorKind::Interrupted | ErrorKind::ConnectionAborted => Arrived::Other,
                ErrorKind::WouldBlock => Arrived::Nobody,
                _ => {
                    // It counts as no visitor, and is said once until one is accepted
                    // (docs/DECISIONS.md, "A visitor who can't be accepted").
                    self.say_shut(&fault);
                    Arrived::Nobody
                }
            },
        }
    }

    /// Asks for all who wait, and answers the newest who may connect. Who may not is refused.
    fn take_waiting(&mut self, allow_list: &AllowList) -> Option<(IpAddr, TcpStream)>
        ensures tells { Tells (T.arrivals self.old.listener)
            (record { told = T.told self.old.listener; is_shut = self.old.is_shut })
            (T.arrivals self.new.listener)
            (record { told = T.told self.new.listener; is_shut = self.new.is_shut }) }
        ensures takes { TakesWaiting allow_list.now (T.arrivals self.old.listener) self.old.refused
            result (T.arrivals self.new.listener) self.new.refused }
        ensures unopened { T.opened self.new.listener ≡ T.opened self.old.listener }
    {
        let mut newest = None;
        for _ in 0..MOST_ACCEPTED {
            match self.take_one(allow_list) {
                // The newest: a control centre that comes again has left the ones before.
                Arrived::Allowed(address, stream) => newest = Some((address, stream)),
                Arrived::Other => {}
                Arrived::Nobody => return newest,
            }
        }
        newest
    }
}

impl<R: Net<Listener = TcpListener, Stream = TcpStream> + Eprint, T: SystemListener + Drop> Listener
    for CentreListener<'_, R, T> {
    type Stream = CentreSocket;

    ghost attempts = { λ _. None };

    ghost refusals = { λ listener. record { peers = None; said = listener.refused } };

    /// An IPv4 address that is written as an IPv6 one counts as that IPv4 address.
    fn accept(&mut self, allow_list: &AllowList) -> Option<Accepted<CentreSocket>>
        ensures allowed { IfSome result (λ accepted. Allows allow_list.now accepted.address) }
        ensures fresh { IfSome result (λ accepted. IsNew None) }
        ensures noted { None ≡ attempted None (is_some result) }
        ensures refused { RefusesStrangers allow_list.now
            (record { peers = None; said = self.old.refused })
            (record { peers = None; said = self.new.refused }) }
        ensures plain { IfSome result (λ accepted. IsPlain accepted.address) }
        ensures takes { AcceptsNewest allow_list.now (T.arrivals self.old.listener)
            self.old.refused (T.opened self.old.listener)
            (option_map (λ accepted. accepted.address) result)
            (T.arrivals self.new.listener) self.new.refused (T.opened self.new.listener) }
        ensures tells { Tells (T.arrivals self.old.listener)
            (record { told = T.told self.old.listener; is_shut = self.old.is_shut })
            (T.arrivals self.new.listener)
            (record { told = T.told self.new.listener; is_shut = self.new.is_shut }) }
    {
        let (address, stream) = self.take_waiting(allow_list)?;
        let stream = self.listener.open(stream).ok()?;
        Some(Accepted { address, stream })
    }

    fn refused(&self) -> RefusedPeers
        ensures { result ≡ self.now.refused }
    {
        self.refused
    }
}

/// The system's clock that never goes back, from a first moment at its start. If it can't be read
/// the last moment is given again. Beside it the system's wall clock.
#[derive(Drop)]
pub struct SystemClock<'a, R, I: SystemInstants + Drop = HostInstants> {
    rt: &'a R,
    instants: I,
    start: Instant,
    /// The moment at its start, in ms.
    first: u64,
    now: u64,
}

impl<'a, R: std::rt::Clock> SystemClock<'a, R> {
    /// Starts it at 0.
    ///
    /// # Errors
    ///
    /// Those of the system.
    pub fn start(rt: &'a R) -> io::Result<SystemClock<'a, R>>
        ensures { IfOk result (λ clock. BeginsAt 0 clock.first clock.now) }
    {
        SystemClock::start_at(rt, 0)
    }

    /// Starts it at a moment, in ms, as a run does that goes on after a restart.
    ///
    /// # Errors
    ///
    /// Those of the system.
    pub fn start_at(rt: &'a R, first: u64) -> io::Result<SystemClock<'a, R>>
        ensures { IfOk result (λ clock. BeginsAt first clock.first clock.now) }
    {
        SystemClock::begun(rt, HostInstants {}, first)
    }
}

impl<'a, R: std::rt::Clock, I: SystemInstants + Drop> SystemClock<'a, R, I> {
    /// Starts it at a moment, in ms, by what these show now.
    fn begun(rt: &'a R, mut instants: I, first: u64) -> io::Result<SystemClock<'a, R, I>>
        ensures moment { IfOk result (λ clock. BeginsAt first clock.first clock.now) }
        ensures start { IfOk result (λ clock. StartsNow (I.instants instants) clock.start
            (I.instants clock.instants)) }
        ensures wall { IfOk result (λ clock. I.wall_times clock.instants ≡ I.wall_times instants) }
    {
        let start = instants.now(rt)?;
        Ok(SystemClock {
            rt,
            instants,
            start,
            first,
            now: first,
        })
    }
}

impl<R: std::rt::Clock, I: SystemInstants + Drop> SystemClock<'_, R, I> {
    /// The moment when the system's clock shows this, in ms.
    fn moment_at(&self, shown: Instant) -> u64
        ensures moment { result ≡ moment_by self.entry.now.first self.entry.now.start
            self.entry.now.now (Ok shown) }
        ensures from { self.entry.now.first ≤ self.entry.now.now → self.entry.now.first ≤ result }
    {
        let passed = shown.duration_since(self.start);
        let passed = u64::try_from(passed.as_millis()).unwrap_or(u64::MAX);
        self.first.saturating_add(passed)
    }
}

impl<R: std::rt::Clock, I: SystemInstants + Drop> Timed for SystemClock<'_, R, I> {
    // Past those that note what the system shows: a run's moments are no matter of how long a call
    // takes.
    fn shown_ms(&self) -> u64 {
        match Instant::now(self.rt) {
            Ok(shown) => self.moment_at(shown),
            Err(_) => self.now,
        }
    }
}

impl<R: std::rt::Clock, I: SystemInstants + Drop> RunClock for SystemClock<'_, R, I> {
    ghost moments = { λ _. None };

    ghost walls = { λ _. None };

    fn now_ms(&mut self) -> u64
        ensures first { self.new.first ≡ self.old.first }
        // No moment is before the first one.
        ensures from { self.old.first ≤ self.old.now → self.old.first ≤ result }
        ensures last { self.new.now ≡ result }
        ensures start { self.new.start ≡ self.old.start }
        ensures goes_on { GoesOn self.old.first self.old.start (I.instants self.old.instants)
            self.old.now (I.instants self.new.instants) result }
        ensures wall { I.wall_times self.new.instants ≡ I.wall_times self.old.instants }
    {
        if let Ok(shown) = self.instants.now(self.rt) {
            self.now = self.moment_at(shown);
        }
        self.now
    }

    /// If it can't be read, or shows a time before 1970, this is 0, which is near no time tag.
    fn wall_ms(&mut self) -> u64
        ensures shown { ShowsWall (I.wall_times self.old.instants) (I.wall_times self.new.instants)
            result }
        ensures instants { I.instants self.new.instants ≡ I.instants self.old.instants }
        // The clock that never goes back goes on as it did.
        ensures first { self.new.first ≡ self.old.first }
        ensures start { self.new.start ≡ self.old.start }
        ensures last { self.new.now ≡ self.old.now }
    {
        let Ok(shown) = self.instants.wall_time(self.rt) else {
            return 0;
        };
        let Ok(passed) = shown.duration_since(SystemTime::UNIX_EPOCH) else {
            return 0;
        };
        u64::try_from(passed.as_millis()).unwrap_or(u64::MAX)
    }
}
