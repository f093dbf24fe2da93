//! One call to a stream of the system, and what its answer means.
ghost use Rattle.std.specs.Prelude.{◌≡◌, ◌≤◌, length, take};
ghost use Rattle.live.specs.OctetStreams.{FitsBuffer};
ghost use Rattle.live.specs.Streams.{ReadsOnce, WritesOnce, WritesAll, WritesInTwo};
ghost use Rattle.live.specs.Streams.{DropsOnce, DropsWaiting, Drains, ReadsFrame, ReadsLine};
ghost use Rattle.live.specs.Streams.{ReceivesOnce, ends_frame};

use crate::ends::Got;
use std::io;
use std::io::{ErrorKind, Read, Write};
use std::net::TcpStream;
use std::os::unix::net::UnixStream;
use std::time::Duration;

/// How often octets are read and dropped at the most before a request is written.
// An end at which octets never cease to come.
const STALE_READS: u32 = 64;

/// How often a look at the line goes on at the most behind its first octets.
// A control centre isn't looked at meanwhile.
const MORE_READS: u32 = 15;

/// The end character of a line frame.
const FRAME_END: u8 = 0x16;

/// The single character.
const SINGLE: u8 = 0xE5;

/// How a stream can be set.
#[derive(Clone, Copy)]
pub enum Setting {
    /// Its calls wait, each as long as its timeout says, or don't.
    Waiting(bool),
    /// A read waits for so many ms at the most.
    ReadsWithin(u64),
    /// A write waits for so many ms at the most.
    WritesWithin(u64),
    /// Octets go out at once, and aren't held back to be joined with what follows.
    SendsAtOnce,
}

/// Octets both ways, as the system has them. A stream that notes its calls adds the answer of each.
pub trait SystemStream {
    ghost use Rattle.std.specs.Prelude.{◌≡◌, ◌≤◌, length, IfOk};
    ghost use Rattle.live.specs.Streams.{Calls, Sent, Sets, called, received};
    ghost use Rattle.std.specs.Result.{is_ok};

    /// Its calls, with what the system answered, the newest first, if it notes them.
    ghost calls: { Self → Calls };

    /// Octets that came, at the front of the buffer; 0 at the stream's end.
    fn receive(&mut self, buf: &mut [u8]) -> io::Result<usize>
        ensures bound { IfOk result (λ len. len ≤ length buf.new) }
        ensures noted { calls self.new ≡ called (calls self.old) (received buf.new result) };

    /// How many octets were taken, from the front.
    fn send(&mut self, octets: &[u8]) -> io::Result<usize>
        ensures bound { IfOk result (λ count. count ≤ length octets.now) }
        ensures noted { calls self.new ≡ called (calls self.old) (Sent octets.now result) };

    /// Sets it so.
    fn set(&mut self, setting: Setting) -> io::Result<()>
        ensures { calls self.new ≡ called (calls self.old) (Sets setting (is_ok result)) };
}

/// A stream of the system, by TCP or by a Unix socket.
#[derive(Drop)]
pub enum SocketStream {
    /// By TCP.
    Tcp(TcpStream),
    /// By a Unix socket.
    Unix(UnixStream),
}

impl SystemStream for SocketStream {
    ghost use Rattle.std.specs.Prelude.{None};

    ghost calls = { λ _. None };

    fn receive(&mut self, buf: &mut [u8]) -> io::Result<usize> {
        match self {
            SocketStream::Tcp(stream) => stream.read(buf),
            SocketStream::Unix(stream) => stream.read(buf),
        }
    }

    fn send(&mut self, octets: &[u8]) -> io::Result<usize> {
        match self {
            SocketStream::Tcp(stream) => stream.write(octets),
            SocketStream::Unix(stream) => stream.write(octets),
        }
    }

    /// A Unix socket holds nothing back.
    fn set(&mut self, setting: Setting) -> io::Result<()> {
        match (self, setting) {
            (SocketStream::Tcp(stream), Setting::Waiting(waits)) => stream.set_nonblocking(!waits),
            (SocketStream::Unix(stream), Setting::Waiting(waits)) => stream.set_nonblocking(!waits),
            (SocketStream::Tcp(stream), Setting::ReadsWithin(ms)) => {
                stream.set_read_timeout(Some(Duration::from_millis(ms)))
            }
            (SocketStream::Unix(stream), Setting::ReadsWithin(ms)) => {
                stream.set_read_timeout(Some(Duration::from_millis(ms)))
            }
            (SocketStream::Tcp(stream), Setting::WritesWithin(ms)) => {
                stream.set_write_timeout(Some(Duration::from_millis(ms)))
            }
            (SocketStream::Unix(stream), Setting::WritesWithin(ms)) => {
                stream.set_write_timeout(Some(Duration::from_millis(ms)))
            }
            (SocketStream::Tcp(stream), Setting::SendsAtOnce) => stream.set_nodelay(true),
            (SocketStream::Unix(_), Setting::SendsAtOnce) => Ok(()),
        }
    }
}

/// Reads once: a timeout and an interruption are quiet, an end and every other failure are the
/// stream's end.
pub(crate) fn read_once<S: SystemStream>(stream: &mut S, buf: &mut [u8; 1024]) -> Got
    ensures fits { FitsBuffer result }
    ensures reads { ReadsOnce (S.calls stream.old) result buf.new (S.calls stream.new) }
{
    match stream.receive(buf) {
        Ok(0) => Got::Gone,
        Ok(len) => Got::Octets(len),
        Err(fault) => match fault.kind() {
            ErrorKind::WouldBlock | ErrorKind::TimedOut | ErrorKind::Interrupted => Got::Quiet,
            _ => Got::Gone,
        },
    }
}

/// Reads once, and goes on if octets came that don't end as a line frame does, for as long as each
/// call brings some, 15 times at the most. Behind a whole frame it waits for nothing.
// If a device server gives an answer octet by octet, each octet would else be an event, and a line
// of the state on disk (docs/DECISIONS.md, "A look until a frame ends").
pub(crate) fn read_line<S: SystemStream>(stream: &mut S, buf: &mut [u8; 1024]) -> Got
    ensures fits { FitsBuffer result }
    ensures reads { ReadsLine (S.calls stream.old) result buf.new (S.calls stream.new) }
{
    match read_once(stream, buf) {
        Got::Octets(len) => Got::Octets(read_on(stream, buf, len)),
        Got::Quiet => Got::Quiet,
        Got::Gone => Got::Gone,
    }
}

/// Reads on behind so many octets, and answers how many there are then.
fn read_on<S: SystemStream>(stream: &mut S, buf: &mut [u8; 1024], first: usize) -> usize
    requires some { 1 ≤ first }
    requires fits { first ≤ 1024 }
    ensures least { first ≤ result }
    ensures bound { result ≤ 1024 }
    ensures reads { ReadsFrame (S.calls stream.old) (take first buf.old) (take result buf.new)
        (S.calls stream.new) }
{
    let mut len = first;
    for _ in 0..MORE_READS {
        if ends_frame(&buf[..len]) {
            return len;
        }
        let count = receive_once(stream, &mut buf[len..]);
        if count == 0 {
            return len;
        }
        len += count;
    }
    len
}

/// The octets end as a line frame does.
pub(crate) fn ends_frame(octets: &[u8]) -> bool
    requires { 1 ≤ length octets.now }
    ensures { result ≡ ends_frame octets.now }
{
    let last = octets[octets.len() - 1];
    last == FRAME_END || last == SINGLE
}

/// Reads once, and answers how many octets came.
fn receive_once<S: SystemStream>(stream: &mut S, buf: &mut [u8]) -> usize
    ensures bound { result ≤ length buf.new }
    ensures receives { ReceivesOnce (S.calls stream.old) (take result buf.new) result
        (S.calls stream.new) }
{
    stream.receive(buf).unwrap_or(0)
}

/// Writes in one call, so that it waits no longer than the stream's timeout, and answers whether
/// all octets were taken.
pub(crate) fn write_once<S: SystemStream>(stream: &mut S, octets: &[u8]) -> bool
    ensures { WritesAll (S.calls stream.old) octets.now result (S.calls stream.new) }
{
    match stream.send(octets) {
        // A part that is taken counts as not taken: on the line the checksum shows it
        // (docs/DECISIONS.md, "One call for a write").
        Ok(count) => count == octets.len(),
        Err(_) => false,
    }
}

/// Writes in one call, and answers how many octets were taken.
pub(crate) fn write_some<S: SystemStream>(stream: &mut S, octets: &[u8]) -> usize
    ensures bound { result ≤ length octets.now }
    ensures writes { WritesOnce (S.calls stream.old) octets.now result (S.calls stream.new) }
{
    stream.send(octets).unwrap_or(0)
}

/// Writes what the stream takes without a wait, and then, within its timeout, what is left. Answers
/// whether all octets were taken.
#[tactic(auto, using(crate::proofs::Writes::written_whole))]
pub(crate) fn write_in_two<S: SystemStream>(stream: &mut S, octets: &[u8]) -> bool
    ensures { WritesInTwo (S.calls stream.old) octets.now result (S.calls stream.new) }
{
    // Nearly every APDU goes out so, without two calls more.
    let taken = write_some(stream, octets);
    if taken == octets.len() {
        return true;
    }
    if stream.set(Setting::Waiting(true)).is_err() {
        return false;
    }
    let is_taken = write_once(stream, &octets[taken..]);
    // A stream that refuses this has gone, as the next look at it finds.
    let _ = stream.set(Setting::Waiting(false));
    is_taken
}

/// Drops what has come and wasn't read, without a wait. Answers how many octets that was.
#[tactic(auto, using(crate::proofs::Drops::refused, crate::proofs::Drops::drained))]
pub(crate) fn drop_waiting<S: SystemStream>(stream: &mut S) -> u64
    ensures { DropsWaiting (S.calls stream.old) result (S.calls stream.new) }
{
    if stream.set(Setting::Waiting(false)).is_err() {
        // A quiet line would be waited for, and the request is worth more than what is stale.
        return 0;
    }
    let count = drop_octets(stream);
    // A stream that refuses this has gone, as the next look at it finds.
    let _ = stream.set(Setting::Waiting(true));
    count
}

/// Reads until nothing comes, and answers how many octets came.
fn drop_octets<S: SystemStream>(stream: &mut S) -> u64
    ensures { Drains (S.calls stream.old) result (S.calls stream.new) }
{
    let mut count = 0;
    for _ in 1..STALE_READS {
        let len = drop_once(stream);
        if len == 0 {
            return count;
        }
        count += len;
    }
    count + drop_once(stream)
}

/// Reads once, and answers how many octets came.
fn drop_once<S: SystemStream>(stream: &mut S) -> u64
    ensures bound { result ≤ 1024 }
    ensures drops { DropsOnce (S.calls stream.old) result (S.calls stream.new) }
{
    receive_once(stream, &mut [0; 1024]) as u64
}

mod noted;
