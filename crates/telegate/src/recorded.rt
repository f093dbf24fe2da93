//! A text that is a record in the place of a trace: its events are run.
ghost use Rattle.std.specs.List.{list_any};
ghost use Rattle.std.specs.Prelude.{◌≡◌, [], false, IfErr, IfOk, OnOk};
ghost use Rattle.record.specs.Lines.{event_lines};
ghost use Rattle.traces.specs.Trace.{lines_of};
ghost use Rattle.telegate.specs.Parts.{IsRecordFound, IsPartRead, IsWant};
ghost use Rattle.telegate.specs.Records.{is_action_line};

use crate::fault::Fault;
use crate::replay::advance;
use record::{event_line, is_action, part_of};
use std::alloc::{AllocError, Global};
use std::io::Read;
use traces::{Blocks, Pause, cut, is_skipped};

const LINE_FEED: u8 = b'\n';

/// Whether a line is that of an action, and is no comment.
fn is_action_line(line: &[u8]) -> bool
    ensures { result ≡ is_action_line line.now }
{
    !is_skipped(line) && is_action(line)
}

/// Whether one of these lines is that of an action.
fn have_actions(lines: &[u8]) -> Result<bool, AllocError>
    ensures { IfOk result (λ found. found ≡ list_any is_action_line (lines_of lines.now)) }
{
    let mut left = lines;
    'seeking: for _ in 0..u64::MAX {
        let (line, rest) = cut(left, LINE_FEED);
        if is_action_line(line) {
            return Ok(true);
        }
        let Some(behind) = rest else {
            return Ok(false);
        };
        left = behind;
    }
    // No memory holds so many lines.
    Err(AllocError)
}

/// Whether a text is a record: a line of it is that of an action. It is read as far as the first
/// block that has one.
pub(crate) fn is_record<R: Read + Drop>(alloc: Global, text: R) -> Result<bool, Fault>
    ensures found { IfOk result (IsRecordFound (R.remaining text)) }
    ensures fault { IfErr result IsWant }
{
    let mut blocks = Blocks::new(alloc, text);
    'seeking: for _ in 0..u64::MAX {
        advance(&mut blocks)?;
        let lines = blocks.lines();
        let has_actions = have_actions(lines)?;
        if has_actions {
            return Ok(true);
        }
        if blocks.is_over() {
            return Ok(false);
        }
    }
    // No memory holds so many blocks.
    Err(Fault::NoMemory)
}

/// Appends lines, with an empty one in the place of each that is no event's.
fn put_events(lines: &[u8], part: &mut Vec<u8>) -> Result<(), AllocError>
    requires { part.old.items ≡ [] }
    ensures { OnOk result (lines_of part.new.items ≡ event_lines (lines_of lines.now)) }
{
    let mut left = lines;
    'putting: for _ in 0..u64::MAX {
        let (line, rest) = cut(left, LINE_FEED);
        part.extend_from_slice(event_line(line))?;
        let Some(behind) = rest else {
            return Ok(());
        };
        part.push(LINE_FEED)?;
        left = behind;
    }
    // No memory holds so many lines.
    Err(AllocError)
}

/// What is read of a block: of a trace its lines as they stand, of a record those of its events,
/// each at its place. A last line of a record that was cut short is left out.
pub(crate) fn read_part<'a>(
    part: &'a mut Vec<u8>,
    lines: &'a [u8],
    is_last: bool,
    as_record: bool,
) -> Result<&'a [u8], AllocError>
    ensures { IfOk result (λ read. IsPartRead as_record lines.entry.now is_last read.now) }
{
    if !as_record {
        return Ok(lines);
    }
    part.clear();
    if let Some(lines) = part_of(lines, is_last) {
        put_events(lines, part)?;
    }
    Ok(part.as_slice())
}

/// A run over a text that has not begun: a tick at moment 0 comes before the events of a trace.
pub(crate) fn pause_before(alloc: Global, as_record: bool) -> Pause
    ensures { result ≡ record {
      started = as_record;
      log = [];
      poured = [];
      page = [];
      failed = 0;
    } }
{
    if as_record {
        Pause::without_tick(alloc)
    } else {
        Pause::new(alloc)
    }
}
