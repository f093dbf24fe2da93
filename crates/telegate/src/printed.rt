//! Runs that print while they go on, and how they end.
ghost use Rattle.std.specs.Prelude.{ℕ, List, Option};
ghost use Rattle.telegate.specs.Printed.{IsPoured, IsClosedBy};

use crate::fault::Fault;
use std::io::Write;
use traces::print;
pub(crate) use traces::{blank_if, drive_printed, show_percent};

/// Prints the lines with which a run ends, when all others were printed.
pub(crate) fn print_closing<W: Write>(
    lines: &[u8],
    is_whole: bool,
    out: &mut W,
) -> Result<(), Fault>
    ensures { (before : Option (List ℕ)) (text : List ℕ) →
        IsPoured is_whole before (W.contents out.old) text →
        IsClosedBy before (W.contents out.new) text lines.now result }
{
    if !is_whole {
        return Err(Fault::Device);
    }
    match print(lines, out) {
        Ok(()) => Ok(()),
        Err(_) => Err(Fault::Device),
    }
}
