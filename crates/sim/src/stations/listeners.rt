//! A listener at the place where a live run looks for its line.
use live::{
    Accepted, AllowList, CentreListener, CentreSocket, Got, Listener, LocalSocket, OctetStream,
    RefusedPeers,
};
use std::io;
use std::io::{Eprint, ErrorKind};
use std::net::{IpAddr, Ipv4Addr, Net, TcpListener, TcpStream};
use std::os::unix::net::UnixListener;
use std::rt::Files;

/// Where a gateway connects as to a serial device server.
#[derive(Drop)]
pub enum LineListener<'a, R> {
    /// By TCP.
    Tcp(CentreListener<'a, R>),
    /// By a Unix socket.
    Unix(UnixListener),
}

impl<'a, R: Net<Listener = TcpListener, Stream = TcpStream> + Eprint + Files> LineListener<'a, R> {
    /// Listens at `tcp:HOST:PORT` or `unix:PATH`.
    ///
    /// # Errors
    ///
    /// Those of the system, and `InvalidInput` if the text is neither.
    // What the system binds, and where, no clause can say: a listener holds a number of the
    // system's alone (checks/stations.py connects by both ways).
    pub fn listen(rt: &'a R, place: &str) -> io::Result<LineListener<'a, R>> {
        if let Some(address) = place.strip_prefix("tcp:") {
            return Ok(LineListener::Tcp(CentreListener::listen(rt, address)?));
        }
        let Some(path) = place.strip_prefix("unix:") else {
            return Err(io::Error::from(ErrorKind::InvalidInput));
        };
        let listener = UnixListener::bind(rt, path)?;
        listener.set_nonblocking(true)?;
        Ok(LineListener::Unix(listener))
    }
}

/// The connection of a gateway. Its reads don't wait.
#[derive(Drop)]
pub enum GatewaySocket {
    /// By TCP.
    Tcp(CentreSocket),
    /// By a Unix socket.
    Unix(LocalSocket),
}

impl OctetStream for GatewaySocket {
    ghost use Rattle.std.specs.Prelude.{None};

    ghost history = { λ _. None };

    fn read(&mut self, buf: &mut [u8; 1024]) -> Got {
        match self {
            GatewaySocket::Tcp(socket) => socket.read(buf),
            GatewaySocket::Unix(socket) => socket.read(buf),
        }
    }

    /// A gateway's octets are all received.
    fn drop_waiting(&mut self) -> u64 {
        0
    }

    fn write(&mut self, octets: &[u8]) -> bool {
        match self {
            GatewaySocket::Tcp(socket) => socket.write(octets),
            GatewaySocket::Unix(socket) => socket.write(octets),
        }
    }
}

/// Who waits at a Unix socket. There is no address at its other end: it is on this machine.
fn accept_local(listener: &UnixListener) -> Option<LocalSocket> {
    let (stream, _) = listener.accept().ok()?;
    LocalSocket::new(stream).ok()
}

impl<R: Net<Listener = TcpListener, Stream = TcpStream> + Eprint + Files> Listener
    for LineListener<'_, R> {
    ghost use Rattle.std.specs.Prelude.{None};
    ghost use Rattle.sim.specs.Listeners.{refusals_of};

    type Stream = GatewaySocket;

    ghost attempts = { λ _. None };

    ghost refusals = { λ listener. refusals_of listener };

    #[tactic(auto, using(live::proofs::Refused::refuses_nobody))]
    fn accept(&mut self, allow_list: &AllowList) -> Option<Accepted<GatewaySocket>> {
        match self {
            LineListener::Tcp(listener) => {
                let Accepted { address, stream } = listener.accept(allow_list)?;
                Some(Accepted {
                    address,
                    stream: GatewaySocket::Tcp(stream),
                })
            }
            LineListener::Unix(listener) => {
                let socket = accept_local(listener)?;
                let address = IpAddr::V4(Ipv4Addr::LOCALHOST);
                if !allow_list.allows(address) {
                    return None;
                }
                Some(Accepted {
                    address,
                    stream: GatewaySocket::Unix(socket),
                })
            }
        }
    }

    fn refused(&self) -> RefusedPeers {
        match self {
            LineListener::Tcp(listener) => listener.refused(),
            LineListener::Unix(_) => RefusedPeers {
                count: 0,
                last: None,
            },
        }
    }
}
