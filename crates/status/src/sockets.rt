//! The streams of visitors on the system's sockets. No call waits.
ghost use Rattle.std.specs.Prelude.{None};
ghost use Rattle.status.specs.Streams.{FitsBuffer};

use crate::streams::{Stream, StreamLook, StreamSource, Took};
use arrayvec::ArrayVec;
use std::io;
use std::io::{ErrorKind, Read, Write};
use std::net::{Net, OpenListener, OpenStream, Shutdown, TcpListener, TcpStream};

/// How many connections are taken from the listener at once at the most: as many as wait there on
/// most machines.
const MOST_WAITING: usize = 128;

/// The connection of a visitor.
#[derive(Drop)]
pub struct VisitorSocket {
    stream: TcpStream,
    /// What came before the visitor was let in, until it is read.
    first: ArrayVec<u8, 1_024>,
}

impl VisitorSocket {
    /// The visitor on this connection, or nobody if its other end has gone already.
    fn of(stream: TcpStream) -> Option<VisitorSocket> {
        stream.set_nonblocking(true).ok()?;
        // Head and body go out in two writes; the system would hold the second one back.
        stream.set_nodelay(true).ok()?;
        let mut room = [0; 1_024];
        let len = match look(&stream, &mut room) {
            StreamLook::Octets(len) => len,
            StreamLook::Quiet => 0,
            StreamLook::Gone => return None,
        };
        let mut first = ArrayVec::from(room);
        first.truncate(len);
        Some(VisitorSocket { stream, first })
    }
}

/// What a connection gives now.
fn look(mut stream: &TcpStream, buf: &mut [u8; 1_024]) -> StreamLook
    ensures { FitsBuffer result }
{
    match stream.read(buf) {
        Ok(0) => StreamLook::Gone,
        Ok(len) => StreamLook::Octets(len),
        Err(fault) if is_quiet(&fault) => StreamLook::Quiet,
        Err(_) => StreamLook::Gone,
    }
}

impl Stream for VisitorSocket {
    ghost given = { λ _. None };

    ghost taken = { λ _. None };

    ghost calls = { λ _. None };

    fn read(&mut self, buf: &mut [u8; 1024]) -> StreamLook {
        if self.first.is_empty() {
            return look(&self.stream, buf);
        }
        let len = self.first.len();
        buf[..len].copy_from_slice(&self.first);
        self.first.clear();
        StreamLook::Octets(len)
    }

    fn write(&mut self, octets: &[u8]) -> Took {
        match self.stream.write(octets) {
            Ok(count) => Took::Octets(count),
            Err(fault) if is_quiet(&fault) => Took::Octets(0),
            Err(_) => Took::Nothing,
        }
    }

    fn finish(&mut self) {
        // If the other end has gone already, the next look finds it.
        let _ = self.stream.shutdown(Shutdown::Write);
    }
}

/// Nothing has happened yet.
fn is_quiet(fault: &io::Error) -> bool {
    // A call that a signal broke off is made again at the next turn.
    matches!(fault.kind(), ErrorKind::WouldBlock | ErrorKind::Interrupted)
}

/// A TCP listener that doesn't wait.
#[derive(Drop)]
pub struct VisitorListener {
    listener: TcpListener,
}

impl VisitorListener {
    /// Listens at `HOST:PORT`.
    ///
    /// # Errors
    ///
    /// Those of the system.
    // What the system binds, and where, no clause can say: a listener holds a number of the
    // system's alone (checks/status.py connects to it).
    pub fn listen<R: Net<Listener = TcpListener, Stream = TcpStream>>(
        rt: &R,
        address: &str,
    ) -> io::Result<VisitorListener> {
        let listener = TcpListener::bind(rt, address)?;
        // Who looks at the state doesn't hold the run up.
        listener.set_nonblocking(true)?;
        Ok(VisitorListener { listener })
    }
}

impl StreamSource for VisitorListener {
    type Stream = VisitorSocket;

    ghost arrivals = { λ _. None };

    fn accept(&mut self) -> Option<VisitorSocket> {
        // Who can't be accepted is no visitor, and the listener stays open. Nor is who has gone
        // meanwhile, so that a flood of openings keeps nobody from the page.
        for _ in 0..MOST_WAITING {
            let (stream, _) = self.listener.accept().ok()?;
            if let Some(visitor) = VisitorSocket::of(stream) {
                return Some(visitor);
            }
        }
        None
    }
}
