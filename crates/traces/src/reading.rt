//! Traces: the events of a run, one a line.
ghost use Rattle.std.specs.Prelude.{◌≡◌, IfOk};
ghost use Rattle.std.specs.List.{AllByRecursion};
ghost use Rattle.gateway.specs.Entries.{FitsPort};
ghost use Rattle.traces.specs.Trace.{IsTraceOf};
ghost use Rattle.traces.specs.declared.reading.TextFault.TheVariants.{NoMemory};

use crate::event::{FirstLine, entry, first_line};
use gateway::Entry;
use std::alloc::{AllocError, AllocFailed, Global};
use thiserror::Error;

pub(crate) const LINE_FEED: u8 = b'\n';

/// Why a text of lines isn't read.
#[derive(Clone, Copy, Debug, PartialEq, Eq, Error)]
pub enum TextFault {
    /// The first wrong line, counted from 1 over all lines.
    #[error("line {0}")]
    Line(u64),
    #[error("no memory")]
    NoMemory,
}

impl From<AllocError> for TextFault {
    ghost from_gives = { λ _ e. e ≡ NoMemory };

    fn from(_error: AllocError) -> TextFault {
        TextFault::NoMemory
    }
}

impl<T: Drop> From<AllocFailed<T>> for TextFault {
    ghost from_gives = { λ _ e. e ≡ NoMemory };

    fn from(_error: AllocFailed<T>) -> TextFault {
        TextFault::NoMemory
    }
}

/// Reads a whole trace: lines that end in a line feed (the last may lack it), empty ones and those
/// that begin with `#` skipped. A line is a moment in ms of 1 to 15 decimal digits, a space and `T`
/// (a tick), `O` (a connection opens) or `C` (it is cut), or `S` (octets from the line) or `R`
/// (from the connection), a space and 1 to 1,024 octets in hexadecimal, or `W` (the wall clock), a
/// space and its milliseconds since 1970-01-01 UTC, of 1 to 15 decimal digits. The first wrong line
/// is the fault.
#[tactic(auto, using(crate::proofs::TraceLemmas::logged_skip, crate::proofs::TraceLemmas::wrong_skip, crate::proofs::TraceLemmas::logged_next, crate::proofs::TraceLemmas::wrong_next, crate::proofs::TraceLemmas::wrong_here, crate::proofs::TraceLemmas::fits_more))]
pub fn read_trace(alloc: Global, text: &[u8]) -> Result<Vec<Entry>, TextFault>
    ensures entries { IsTraceOf text.now result }
    // What a port gives the gateway at most.
    ensures fits { IfOk result (λ v. AllByRecursion FitsPort v.items) }
{
    let mut entries = Vec::new(alloc);
    let mut left = Some(text);
    for number in 1..u64::MAX {
        let Some(text) = left else {
            return Ok(entries);
        };
        match first_line(text) {
            FirstLine::Skipped(rest) => left = rest,
            FirstLine::Event(event) => match entry(alloc, &event)? {
                Some((entry, rest)) => {
                    entries.push(entry)?;
                    left = rest;
                }
                None => return Err(TextFault::Line(number)),
            },
            FirstLine::Wrong => return Err(TextFault::Line(number)),
        }
    }
    // No memory holds so many lines.
    Err(TextFault::NoMemory)
}
