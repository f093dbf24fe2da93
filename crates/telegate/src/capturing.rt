//! The command that makes a capture of a recorded run.
ghost use Rattle.std.specs.Prelude.{◌≡◌};
ghost use Rattle.telegate.specs.Captures.{IsCapturedBy, fault_of_capture};

use crate::check::read_config;
use crate::fault::Fault;
use crate::replay::open;
use crate::source::Source;
use record::{CaptureFault, capture_text};
use std::alloc::Global;
use std::io::Write;

/// Writes the capture (pcapng) of a record. The settings, of which it takes the size of link
/// addresses, are judged before the record, which is read once, block by block, and written as it
/// is read.
pub(crate) fn capture<S: Source, W: Write>(
    alloc: Global,
    config: &[u8],
    text: &S,
    out: &mut W,
) -> Result<(), Fault>
    ensures { IsCapturedBy config.now (S.has text.now) (W.contents out.old)
        (W.contents out.new) result }
{
    let text = open(text)?;
    let config = read_config(alloc, config)?;
    match capture_text(alloc, config.line().link, text, out) {
        Ok(()) => Ok(()),
        Err(fault) => Err(fault_of(fault)),
    }
}

/// Why a command stops whose record has no whole capture.
fn fault_of(fault: CaptureFault) -> Fault
    ensures { result ≡ fault_of_capture fault }
{
    match fault {
        CaptureFault::Line(n) => Fault::Record(n),
        CaptureFault::Unread => Fault::Unread,
        CaptureFault::Unwritten => Fault::Device,
        CaptureFault::NoMemory => Fault::NoMemory,
    }
}
