//! The lines of a record, put on a page one after another.
ghost use Rattle.std.specs.Prelude.{◌≡◌, ◌++◌, map, IfOk, OnOk};
ghost use Rattle.std.specs.Option.{option_copied};
ghost use Rattle.traces.specs.Fields.{parts_after};
ghost use Rattle.record.specs.Captures.{after_line, line_blocks};
ghost use Rattle.record.specs.Recorded.{is_line};
ghost use Rattle.record.specs.Texts.{ArePassed, kept_line};

use super::capturing::Capture;
use crate::audit::passing::is_cut;
use std::alloc::AllocError;
use traces::{Page, cut};

const LINE_FEED: u8 = b'\n';

/// How far lines were passed.
#[derive(Clone, Copy)]
pub(crate) enum Passed {
    /// All of them; the line behind them has this number.
    All(u64),
    /// Up to the one of this number, which is neither an event nor an action.
    Wrong(u64),
}

/// Puts the packets of a line, unless it was cut short. `false` says that it is no line of a
/// record; then nothing was put. An `Err` is want of memory.
fn put_line(capture: &mut Capture, page: &mut Page, line: &[u8]) -> Result<bool, AllocError>
    ensures line { IfOk result (λ is. is ≡ is_line (kept_line line.now)) }
    ensures put { OnOk result (page.new
        ≡ page.old ++ line_blocks capture.old (kept_line line.now)) }
    ensures after { OnOk result (capture.new ≡ after_line capture.old (kept_line line.now)) }
{
    if is_cut(line) {
        return Ok(true);
    }
    capture.add_line(page, line)
}

/// Puts the packets of lines, of which the first has this number, up to the first that is neither
/// an event nor an action. An `Err` is want of memory.
pub(crate) fn put_lines(
    capture: &mut Capture,
    page: &mut Page,
    lines: Option<&[u8]>,
    first: u64,
) -> Result<Passed, AllocError>
    ensures { IfOk result (ArePassed first capture.old
        (map kept_line (parts_after 10 (option_copied lines.entry))) page.old page.new
        capture.new) }
{
    let mut left = lines;
    'passing: for number in first..u64::MAX {
        let Some(text) = left else {
            return Ok(Passed::All(number));
        };
        let (line, rest) = cut(text, LINE_FEED);
        if !put_line(capture, page, line)? {
            return Ok(Passed::Wrong(number));
        }
        left = rest;
    }
    // No memory holds so many lines.
    Err(AllocError)
}
