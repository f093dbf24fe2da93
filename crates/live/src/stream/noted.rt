//! A stream of the system in memory, which notes its calls: an instance of what is asked of one.
ghost use Rattle.std.specs.Prelude.{◌≡◌, [], ◌∷◌, Ok, Err, Some, true};
ghost use Rattle.std.specs.declared.io.Error.{Error};
ghost use Rattle.live.specs.Memory.{calls_in};
ghost use Rattle.live.specs.Streams.{Received, Sent, Sets};

use super::{Setting, SystemStream};
use gateway::{Action, History, Next};
use std::io;
use std::io::ErrorKind;

/// What no octets of a buffer are noted with.
const NO_OCTETS: [u8; 1024] = [0; 1024];

/// The calls of a stream, with one that brought so many octets.
fn with_octets(log: &History, octets: &[u8], count: usize) -> History
    ensures { (fault : Error) → calls_in fault result.entries
        ≡ Received octets.now (Ok count) ∷ calls_in fault log.now.entries }
{
    log.went(&(count as u64), &Action::Line(octets))
}

/// The calls of a stream, with one that brought none.
fn with_fault(log: &History) -> History
    ensures { (fault : Error) → calls_in fault result.entries
        ≡ Received [] (Err fault) ∷ calls_in fault log.now.entries }
{
    log.came(&Next::Tick(0), &NO_OCTETS)
}

/// The calls of a stream, with one that took so many of these octets.
fn with_write(log: &History, octets: &[u8], count: usize) -> History
    ensures { (fault : Error) → calls_in fault result.entries
        ≡ Sent octets.now (Ok count) ∷ calls_in fault log.now.entries }
{
    log.went(&(count as u64), &Action::Tcp(octets))
}

/// The calls of a stream, with one that set it so.
fn with_setting(log: &History, setting: Setting) -> History
    ensures { (fault : Error) → calls_in fault result.entries
        ≡ Sets setting true ∷ calls_in fault log.now.entries }
{
    let (kind, number) = match setting {
        Setting::Waiting(false) => (0, 0),
        Setting::Waiting(true) => (0, 1),
        Setting::ReadsWithin(ms) => (1, ms),
        Setting::WritesWithin(ms) => (2, ms),
        Setting::SendsAtOnce => (3, 0),
    };
    log.came(&Next::Wall(kind, number), &NO_OCTETS)
}

/// A stream that gives these octets, so many a call, and is quiet when they have all come. It takes
/// so many a call, too.
#[derive(Drop)]
pub(super) struct PiecewiseStream<'a> {
    octets: &'a [u8],
    size: usize,
    /// What it answers when none have come.
    fault: io::Error,
    /// Its calls.
    log: History,
}

impl<'a> PiecewiseStream<'a> {
    pub(super) fn new(octets: &'a [u8], size: usize) -> PiecewiseStream<'a>
        ensures { calls_in result.fault result.log.entries ≡ [] }
    {
        PiecewiseStream {
            octets,
            size,
            fault: io::Error::from(ErrorKind::WouldBlock),
            log: History::new(),
        }
    }
}

impl SystemStream for PiecewiseStream<'_> {
    ghost calls = { λ stream. Some (calls_in stream.fault stream.log.entries) };

    fn receive(&mut self, buf: &mut [u8]) -> io::Result<usize> {
        let count = self.size.min(self.octets.len()).min(buf.len());
        if count == 0 {
            self.log = with_fault(&self.log);
            return Err(self.fault);
        }
        buf[..count].copy_from_slice(&self.octets[..count]);
        self.octets = &self.octets[count..];
        self.log = with_octets(&self.log, &buf[..count], count);
        Ok(count)
    }

    fn send(&mut self, octets: &[u8]) -> io::Result<usize> {
        let count = self.size.min(octets.len());
        self.log = with_write(&self.log, octets, count);
        Ok(count)
    }

    fn set(&mut self, setting: Setting) -> io::Result<()> {
        self.log = with_setting(&self.log, setting);
        Ok(())
    }
}
