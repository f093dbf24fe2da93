//! Who comes to a listener of the system.

use crate::room::{STANDARD_ERROR, has_room};
use crate::sockets::CentreSocket;
use crate::stream::SocketStream;
use std::io;
use std::io::Eprint;
use std::net::{IpAddr, Net, OpenListener, SocketAddr, TcpListener, TcpStream};

/// A listener, as the system has it. One that notes its calls adds the answer of each, each fault
/// that is told, and whether the stream of each who was let in can be used.
pub trait SystemListener {
    ghost use Rattle.std.specs.Prelude.{◌≡◌, [], ◌∷◌, IfOk, IfSome, true};
    ghost use Rattle.live.specs.Arrivals.{Arrivals, Binding, IsRebound, arrived};
    ghost use Rattle.std.specs.Prelude.{Option};
    ghost use Rattle.live.specs.OctetStreams.{Attempts, attempted};
    ghost use Rattle.live.specs.Telling.{ToldFaults, one_more_told};
    ghost use Rattle.std.specs.Result.{is_ok};

    /// What the system answered so far, the newest first, if it notes that.
    ghost arrivals: { Self → Arrivals };

    /// The faults by which it was told that nobody can be accepted, the newest first, if it notes
    /// them.
    ghost told: { Self → ToldFaults };

    /// Whether each stream that was opened can be used, the newest first, if it notes that.
    ghost opened: { Self → Attempts };

    /// Where it was bound, and whether its calls wait, if it notes that.
    ghost binding: { Self → Option Binding };

    /// One bound at `HOST:PORT`, whose calls wait.
    fn bind<R: Net<Listener = TcpListener, Stream = TcpStream>>(
        rt: &R,
        place: &str,
    ) -> io::Result<Self>
    where
        Self: Sized,
        ensures { IfOk result (λ listener. IfSome (binding listener)
            (λ noted. noted ≡ record { place = place.now; is_waiting = true })) };

    /// Says whether its calls wait.
    fn set_waiting(&mut self, is_waiting: bool) -> io::Result<()>
        ensures { IfOk result (λ _. IsRebound (binding self.old) is_waiting (binding self.new)) };

    /// The next who waits.
    fn accept_next(&mut self) -> io::Result<(TcpStream, SocketAddr)>
        ensures asked { arrivals self.new ≡ arrived (result ∷ []) (arrivals self.old) }
        ensures silent { told self.new ≡ told self.old }
        ensures unopened { opened self.new ≡ opened self.old };

    /// Opens a connection over the stream of somebody who came.
    fn open(&mut self, stream: TcpStream) -> io::Result<CentreSocket>
        ensures opens { opened self.new ≡ attempted (opened self.old) (is_ok result) }
        ensures unasked { arrivals self.new ≡ arrivals self.old }
        ensures silent { told self.new ≡ told self.old };

    /// Tells on standard error that nobody can be accepted.
    fn tell<R: Eprint>(&mut self, rt: &R, fault: &io::Error)
        ensures told { told self.new ≡ one_more_told fault.now (told self.old) }
        ensures unasked { arrivals self.new ≡ arrivals self.old }
        ensures unopened { opened self.new ≡ opened self.old };
}

impl SystemListener for TcpListener {
    ghost use Rattle.std.specs.Prelude.{None};

    ghost arrivals = { λ _. None };

    ghost told = { λ _. None };

    ghost opened = { λ _. None };

    ghost binding = { λ _. None };

    // Where the system binds it no clause of the kit's call says.
    fn bind<R: Net<Listener = TcpListener, Stream = TcpStream>>(
        rt: &R,
        place: &str,
    ) -> io::Result<TcpListener> {
        TcpListener::bind(rt, place)
    }

    fn set_waiting(&mut self, is_waiting: bool) -> io::Result<()> {
        self.set_nonblocking(!is_waiting)
    }

    // What the system answers to it no clause of the kit's call says.
    fn accept_next(&mut self) -> io::Result<(TcpStream, SocketAddr)> {
        self.accept()
    }

    fn open(&mut self, stream: TcpStream) -> io::Result<CentreSocket> {
        CentreSocket::new(SocketStream::Tcp(stream))
    }

    // What stands on standard error no clause of the kit's call says either.
    fn tell<R: Eprint>(&mut self, rt: &R, fault: &io::Error) {
        if has_room(STANDARD_ERROR) {
            let _ = eprintln!(rt; "connections can't be accepted: {fault}");
        }
    }
}

/// What a call for the next who waits came to.
#[derive(Drop)]
pub(crate) enum Arrived {
    /// Somebody who may connect.
    Allowed(IpAddr, TcpStream),
    /// Nobody who may; but others may wait.
    Other,
    /// Nobody waits, or nobody can be accepted.
    Nobody,
}
