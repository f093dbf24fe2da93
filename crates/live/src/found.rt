//! What a look at the ends finds.
ghost use Rattle.std.specs.Prelude.{◌≡◌, IfSome};
ghost use Rattle.live.specs.Ends.{FitsFound, brings_frame, event_at, faults_in};
ghost use Rattle.gateway.specs.Ports.{faults_of};

use crate::stream::ends_frame;
use gateway::Next;

/// What a look at a source finds.
#[derive(Clone, Copy, PartialEq, Eq)]
pub(crate) enum SourceEvent {
    /// A control centre connected.
    Open,
    /// So many octets came on the connection.
    Bytes(usize),
    /// The connection is gone.
    Cut,
    /// So many octets came from the line.
    Line(usize),
    /// The line is gone.
    Fault,
}

/// What was found, as an event of this moment; if nothing was, only time passed.
pub(crate) fn event_at(now: u64, found: Option<SourceEvent>) -> Next
    ensures value { result ≡ event_at now found }
    ensures faults { faults_of result ≡ faults_in found }
{
    match found {
        None => Next::Tick(now),
        Some(SourceEvent::Open) => Next::Open(now),
        Some(SourceEvent::Bytes(len)) => Next::Bytes(now, len),
        Some(SourceEvent::Cut) => Next::Cut(now),
        Some(SourceEvent::Line(len)) => Next::Line(now, len),
        Some(SourceEvent::Fault) => Next::Fault,
    }
}

/// It is octets of the line, at the front of this buffer, that end as a line frame does.
pub(crate) fn brings_frame(found: Option<SourceEvent>, buf: &[u8; 1024]) -> bool
    requires { IfSome found FitsFound }
    ensures { result ≡ brings_frame found buf.now }
{
    match found {
        Some(SourceEvent::Line(len)) => ends_frame(&buf[..len]),
        _ => false,
    }
}
