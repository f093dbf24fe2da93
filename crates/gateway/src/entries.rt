//! What comes in and goes out in a run, as it is stored.
ghost use Rattle.std.specs.Prelude.{◌≡◌, ◌≤◌, [], ◌∷◌, ◌++◌, length, take, IfOk, OnOk, OnErr};
ghost use Rattle.gateway.specs.Log.{Went};
ghost use Rattle.gateway.specs.Ports.{output_of};
ghost use Rattle.gateway.specs.Entries.{FitsPort, IsAnnounced, number_of, logged_of};

use crate::ports::{Action, Next};
use session::Close;
use std::alloc::{AllocError, Global};

/// An event with its moment, in milliseconds.
#[derive(PartialEq, Eq, Drop)]
pub enum Entry {
    /// Octets came from the line.
    Line(u64, Vec<u8>),
    /// The control centre opened a connection.
    Open(u64),
    /// Octets came on the connection.
    Bytes(u64, Vec<u8>),
    /// The connection is cut.
    Cut(u64),
    /// Only time passed.
    Tick(u64),
    /// The wall clock shows so many milliseconds since 1970-01-01 UTC (the second number).
    Wall(u64, u64),
}

/// An event that came in, or an action that went out, with its moment.
#[derive(PartialEq, Eq, Drop)]
pub enum StoredEntry {
    /// An event came in.
    Came(Entry),
    /// Octets went out to the line: one request.
    Line(u64, Vec<u8>),
    /// Octets were handed to TCP: one APDU.
    Tcp(u64, Vec<u8>),
    /// The connection was closed, for this cause.
    Close(u64, Close),
    /// A session of a station's link ended with a gap: the station, from 0, and the session, from
    /// 1.
    Gap(u64, usize, u64),
}

impl StoredEntry {
    /// An action that went out at this moment, with octets of its own.
    pub fn went(alloc: Global, now: u64, action: &Action<'_>) -> Result<StoredEntry, AllocError>
        ensures { IfOk result (λ logged. logged_of logged ≡ Went now (output_of action.now)) }
    {
        match action {
            Action::Line(octets) => Ok(StoredEntry::Line(now, Vec::from_slice(alloc, octets)?)),
            Action::Tcp(octets) => Ok(StoredEntry::Tcp(now, Vec::from_slice(alloc, octets)?)),
            Action::Close(cause) => Ok(StoredEntry::Close(now, *cause)),
            Action::Gap { station, session } => Ok(StoredEntry::Gap(now, *station, *session)),
        }
    }
}

/// Copies the octets to the front.
fn fill(buf: &mut [u8; 1024], octets: &[u8])
    requires { length octets.now ≤ 1024 }
    ensures { take (length octets.now) buf.new ≡ octets.now }
{
    buf[..octets.len()].copy_from_slice(octets);
}

/// What a port answers that gives this entry: its octets are copied to the front of the buffer.
/// They are to be 1,024 at most.
pub fn announce(entry: &Entry, buf: &mut [u8; 1024]) -> Next
    requires { FitsPort entry.now }
    ensures { IsAnnounced entry.now result buf.new }
{
    match entry {
        Entry::Line(now, octets) => {
            fill(buf, octets);
            Next::Line(*now, octets.len())
        }
        Entry::Open(now) => Next::Open(*now),
        Entry::Bytes(now, octets) => {
            fill(buf, octets);
            Next::Bytes(*now, octets.len())
        }
        Entry::Cut(now) => Next::Cut(*now),
        Entry::Tick(now) => Next::Tick(*now),
        Entry::Wall(now, number) => Next::Wall(*now, *number),
    }
}

/// Adds to a log that is stored.
pub fn keep(log: &mut Vec<StoredEntry>, logged: StoredEntry) -> Result<(), AllocError>
    ensures ok { OnOk result (log.new.items ≡ log.old.items ++ logged ∷ []) }
    ensures err { OnErr result (log.new.items ≡ log.old.items) }
{
    log.push(logged)?;
    Ok(())
}

/// The number of a cause, 1 to 7, as it is printed.
pub fn cause_number(cause: Close) -> u8
    ensures { result ≡ number_of cause }
{
    cause as u8
}
