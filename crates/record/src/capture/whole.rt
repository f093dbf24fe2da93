//! A whole record as a capture, read block by block.
ghost use Rattle.std.specs.Prelude.{◌≡◌, [], false, map, IfErr, IfOk, IfSome, OnErr, OnOk};
ghost use Rattle.std.specs.Io.KnownBytes.{Appends};
ghost use Rattle.std.specs.Option.{option_copied};
ghost use Rattle.traces.specs.Blocks.{Gives, IsGiven};
ghost use Rattle.traces.specs.Pouring.{IsBegun};
ghost use Rattle.traces.specs.Fields.{parts_after};
ghost use Rattle.record.specs.Captures.{blocks_of, last_packets};
ghost use Rattle.record.specs.Texts.{AreWritten, IsCaptured, IsEndFault, IsPartFault};
ghost use Rattle.record.specs.Texts.{IsReadFault, kept_line};
ghost use Rattle.record.specs.declared.capture.whole.CaptureFault.TheVariants.{Unwritten};

use super::capturing::Capture;
use super::passing::{Passed, put_lines};
use crate::audit::passing::part_of;
use ft12::LinkSize;
use std::alloc::{AllocError, Global};
use std::io::{Read, Write};
use thiserror::Error;
use traces::{BlockFault, Blocks, Page, print};

/// Why there is no capture of a whole record.
#[derive(Clone, Copy, Debug, PartialEq, Eq, Error)]
pub enum CaptureFault {
    /// The first line, counted from 1, that is neither an event nor an action.
    #[error("line {0}")]
    Line(u64),
    /// The record can't be read on.
    #[error("the record cannot be read")]
    Unread,
    /// The output can't be written.
    #[error("the capture cannot be written")]
    Unwritten,
    /// Memory was refused.
    #[error("no memory")]
    NoMemory,
}

impl From<AllocError> for CaptureFault {
    ghost use Rattle.record.specs.declared.capture.whole.CaptureFault.TheVariants.{NoMemory};

    ghost from_gives = { λ _ e. e ≡ NoMemory };

    fn from(_error: AllocError) -> CaptureFault {
        CaptureFault::NoMemory
    }
}

/// Writes what is on a page, and takes it off.
fn pour<W: Write>(page: &mut Page, out: &mut W) -> Result<(), CaptureFault>
    ensures clear { page.new ≡ [] }
    ensures all { OnOk result (Appends (W.contents out.old) (W.contents out.new) page.old) }
    ensures begun { OnErr result (IsBegun (W.contents out.old) (W.contents out.new) page.old) }
    ensures fault { IfErr result (λ fault. fault ≡ Unwritten) }
{
    let printed = print(page.octets(), out);
    page.clear();
    match printed {
        Ok(()) => Ok(()),
        Err(_) => Err(CaptureFault::Unwritten),
    }
}

/// Goes on to the next block of a text, if there is one.
fn advance<R: Read + Drop>(blocks: &mut Blocks<R>) -> Result<(), CaptureFault>
    requires { blocks.old.is_over ≡ false }
    ensures block { OnOk result (IfSome blocks.old.coming (λ text. IsGiven text blocks.new)) }
    ensures fault { IfErr result IsReadFault }
{
    match blocks.advance() {
        Ok(true) => Ok(()),
        Ok(false) => unreachable!(),
        Err(BlockFault::Unread) => Err(CaptureFault::Unread),
        Err(BlockFault::NoMemory) => Err(CaptureFault::NoMemory),
    }
}

/// Writes the packets of the lines of a part, of which the first has this number. Answers that of
/// the line behind them. At the first line that is neither an event nor an action the capture ends.
fn capture_part<W: Write>(
    capture: &mut Capture,
    page: &mut Page,
    part: Option<&[u8]>,
    first: u64,
    out: &mut W,
) -> Result<u64, CaptureFault>
    requires { page.old ≡ [] }
    ensures part { IfOk result (λ next. AreWritten first next capture.old
        (map kept_line (parts_after 10 (option_copied part.entry)))
        (W.contents out.old) (W.contents out.new) capture.new) }
    ensures clear { OnOk result (page.new ≡ []) }
    ensures fault { IfErr result (IsPartFault first capture.old
        (map kept_line (parts_after 10 (option_copied part.entry)))
        (W.contents out.old) (W.contents out.new)) }
{
    match put_lines(capture, page, part, first)? {
        Passed::All(next) => {
            pour(page, out)?;
            Ok(next)
        }
        Passed::Wrong(n) => {
            capture.end(page)?;
            pour(page, out)?;
            Err(CaptureFault::Line(n))
        }
    }
}

/// Writes what came of the line and is no whole frame.
fn finish<W: Write>(capture: &mut Capture, page: &mut Page, out: &mut W) -> Result<(), CaptureFault>
    requires { page.old ≡ [] }
    ensures all { OnOk result (Appends (W.contents out.old) (W.contents out.new)
        (blocks_of (last_packets capture.old))) }
    ensures begun { OnErr result (IsBegun (W.contents out.old) (W.contents out.new)
        (blocks_of (last_packets capture.old))) }
    ensures fault { IfErr result IsEndFault }
{
    capture.end(page)?;
    pour(page, out)
}

/// Writes the capture of a record whose line has link addresses of this size. The record is read
/// once, block by block, and what its lines log is written before more is read, so that who records
/// a run can be followed. A last line that was cut short is left out, and so is one that is marked
/// so. At the first line that is neither an event nor an action the capture of those before it
/// ends.
pub fn capture_text<R: Read + Drop, W: Write>(
    alloc: Global,
    link: LinkSize,
    text: R,
    out: &mut W,
) -> Result<(), CaptureFault>
    ensures { IsCaptured link (Gives (R.remaining text)) (W.contents out.old)
        (W.contents out.new) result }
{
    let mut capture = Capture::new(alloc, link);
    let mut page = Page::new(alloc);
    capture.begin(&mut page)?;
    pour(&mut page, out)?;
    let mut blocks = Blocks::new(alloc, text);
    let mut next = 1;
    'capturing: for _ in 0..u64::MAX {
        advance(&mut blocks)?;
        let part = part_of(blocks.lines(), blocks.is_over());
        next = capture_part(&mut capture, &mut page, part, next, out)?;
        if blocks.is_over() {
            return finish(&mut capture, &mut page, out);
        }
    }
    // No memory holds so many blocks.
    Err(CaptureFault::NoMemory)
}
