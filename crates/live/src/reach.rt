//! What connects to the line.

use crate::sockets::LineSocket;
use crate::stream::SocketStream;
use std::io::ErrorKind;
use std::net::{HostAddrs, Net, SocketAddr, TcpStream, ToSocketAddrs};
use std::os::unix::net::UnixStream;
use std::rt::Clock;
use std::time::{Duration, Instant};
use std::{io, thread};

/// A stream to the line, whose connect was begun, or waited for.
#[derive(Drop)]
pub enum ReachedStream {
    /// By TCP; its connect goes on.
    Begun(mio::net::TcpStream),
    /// By a Unix socket, without a wait.
    BegunAt(mio::net::UnixStream),
    /// By TCP.
    Tcp(TcpStream),
    /// By a Unix socket.
    Unix(UnixStream),
}

/// How a connect stands.
#[derive(Clone, Copy)]
pub enum Standing {
    /// It came through.
    Through,
    UnderWay,
    /// It failed for this cause.
    Broken(ErrorKind),
}

/// A connect that goes on.
#[derive(Drop)]
pub(crate) struct Connecting {
    pub(crate) stream: ReachedStream,
    /// When it began.
    pub(crate) since: Instant,
}

/// What connects, as the system does. One that notes its calls adds each of them, and what it was
/// answered.
pub trait SystemReach {
    ghost use Rattle.std.specs.Prelude.{◌≡◌};
    ghost use Rattle.std.specs.Result.{is_ok};
    ghost use Rattle.live.specs.Reaching.{AtPath, Began, Came, LookedUp, Opened, ReachSteps};
    ghost use Rattle.live.specs.Reaching.{Showed, Slept, Stood, Waited, WaitedAt, step_noted};

    /// Its calls so far, the newest first, if it notes them.
    ghost steps: { Self → ReachSteps };

    /// Looks up `HOST:PORT`, for which the system may wait.
    fn look_up<R: Net>(&mut self, rt: &R, host: &str) -> io::Result<()>
        ensures { steps self.new ≡ step_noted (LookedUp host.now result) (steps self.old) };

    /// The next address of the host that was looked up last.
    fn next_address(&mut self) -> Option<SocketAddr>
        ensures { steps self.new ≡ step_noted (Came result) (steps self.old) };

    /// Begins a connect to this address, without a wait.
    fn begin<R: Net>(&mut self, rt: &R, address: SocketAddr) -> io::Result<ReachedStream>
        ensures { steps self.new ≡ step_noted (Began address result) (steps self.old) };

    /// Begins a connect to the socket at this path, without a wait.
    fn begin_at<R: Net>(&mut self, rt: &R, path: &str) -> io::Result<ReachedStream>
        ensures { steps self.new ≡ step_noted (AtPath path.now result) (steps self.old) };

    /// Connects to this address, and waits for so many ms at the most.
    fn connect<R: Net<Stream = TcpStream>>(
        &mut self,
        rt: &R,
        address: SocketAddr,
        ms: u64,
    ) -> io::Result<ReachedStream>
        ensures { steps self.new ≡ step_noted (Waited address ms result) (steps self.old) };

    /// Connects to the socket at this path.
    fn connect_at<R: Net>(&mut self, rt: &R, path: &str) -> io::Result<ReachedStream>
        ensures { steps self.new ≡ step_noted (WaitedAt path.now result) (steps self.old) };

    /// How the connect of this stream stands.
    fn standing(&mut self, stream: &ReachedStream) -> Standing
        ensures { steps self.new ≡ step_noted (Stood stream.now result) (steps self.old) };

    /// What the clock that never goes back shows now.
    fn now<R: Clock>(&mut self, rt: &R) -> io::Result<Instant>
        ensures { steps self.new ≡ step_noted (Showed result) (steps self.old) };

    /// The line over this stream, whose connect came through.
    fn open(&mut self, stream: ReachedStream) -> io::Result<LineSocket>
        ensures { steps self.new ≡ step_noted (Opened stream (is_ok result)) (steps self.old) };

    /// Waits for so many ms.
    fn pause<R: Clock>(&mut self, rt: &R, ms: u64)
        ensures { steps self.new ≡ step_noted (Slept ms) (steps self.old) };
}

/// The system itself.
#[derive(Drop)]
pub struct HostReach {
    /// The addresses that are still to come.
    addresses: Option<HostAddrs>,
}

impl HostReach {
    /// No host was looked up yet.
    pub(crate) fn new() -> HostReach {
        HostReach { addresses: None }
    }
}

// Where a stream that is begun leads, what became of it, and which addresses a name has, no clause
// of the kit's calls says.
impl SystemReach for HostReach {
    ghost use Rattle.std.specs.Prelude.{None};

    ghost steps = { λ _. None };

    fn look_up<R: Net>(&mut self, rt: &R, host: &str) -> io::Result<()> {
        self.addresses = None;
        self.addresses = Some(host.to_socket_addrs(rt)?);
        Ok(())
    }

    fn next_address(&mut self) -> Option<SocketAddr> {
        match &mut self.addresses {
            Some(addresses) => addresses.next(),
            None => None,
        }
    }

    fn begin<R: Net>(&mut self, rt: &R, address: SocketAddr) -> io::Result<ReachedStream> {
        Ok(ReachedStream::Begun(mio::net::TcpStream::connect(rt, address)?))
    }

    fn begin_at<R: Net>(&mut self, rt: &R, path: &str) -> io::Result<ReachedStream> {
        Ok(ReachedStream::BegunAt(mio::net::UnixStream::connect(rt, path)?))
    }

    fn connect<R: Net<Stream = TcpStream>>(
        &mut self,
        rt: &R,
        address: SocketAddr,
        ms: u64,
    ) -> io::Result<ReachedStream> {
        let limit = Duration::from_millis(ms);
        Ok(ReachedStream::Tcp(TcpStream::connect_timeout(rt, &address, limit)?))
    }

    fn connect_at<R: Net>(&mut self, rt: &R, path: &str) -> io::Result<ReachedStream> {
        Ok(ReachedStream::Unix(UnixStream::connect(rt, path)?))
    }

    fn standing(&mut self, stream: &ReachedStream) -> Standing {
        let ReachedStream::Begun(stream) = stream else {
            return Standing::Through;
        };
        // The system reports a failure once.
        match stream.take_error() {
            Ok(None) => {}
            Ok(Some(fault)) | Err(fault) => return Standing::Broken(fault.kind()),
        }
        if stream.peer_addr().is_ok() {
            Standing::Through
        } else {
            Standing::UnderWay
        }
    }

    fn now<R: Clock>(&mut self, rt: &R) -> io::Result<Instant> {
        Instant::now(rt)
    }

    fn open(&mut self, stream: ReachedStream) -> io::Result<LineSocket> {
        match stream {
            ReachedStream::Begun(stream) => {
                LineSocket::waiting(SocketStream::Tcp(TcpStream::from(stream)))
            }
            ReachedStream::BegunAt(stream) => {
                LineSocket::waiting(SocketStream::Unix(UnixStream::from(stream)))
            }
            ReachedStream::Tcp(stream) => LineSocket::over(SocketStream::Tcp(stream)),
            ReachedStream::Unix(stream) => LineSocket::over(SocketStream::Unix(stream)),
        }
    }

    fn pause<R: Clock>(&mut self, rt: &R, ms: u64) {
        thread::sleep(rt, Duration::from_millis(ms));
    }
}
