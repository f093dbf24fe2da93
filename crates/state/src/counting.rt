//! How many lines of events stand in a log.
ghost use Rattle.std.specs.Prelude.{◌≡◌, ◌+◌, [], length, IfErr, IfOk, false, true};
ghost use Rattle.state.specs.Replays.{events_in_front};

use crate::replaying::{EventLines, Row, broken_off, next_row};
use checkpoint::StateFault;
use std::alloc::Global;

/// How many lines come.
pub(crate) fn count_all<L: EventLines + Drop>(alloc: Global, lines: L) -> Result<u64, StateFault>
    ensures all { IfOk result (λ n. n ≡ length (L.coming lines)) }
    ensures fault { IfErr result (λ fault. fault ≡ StateFault.Wrong → ⊥) }
{
    let mut lines = lines;
    let mut line = Vec::new(alloc);
    for number in 0..u64::MAX {
        match lines.next_line(&mut line) {
            Ok(true) => {}
            Ok(false) => return Ok(number),
            Err(fault) => return Err(broken_off(fault)),
        }
    }
    // No memory holds so many lines.
    Err(StateFault::NoMemory)
}

/// How many lines log an event, up to the first that logs none.
pub(crate) fn count_logged<L: EventLines + Drop>(alloc: Global, lines: L) -> Result<u64, StateFault>
    ensures logged { IfOk result (λ n. n ≡ length (events_in_front (L.coming lines))) }
    ensures fault { IfErr result (λ fault. fault ≡ StateFault.Wrong → ⊥) }
{
    let mut lines = lines;
    let mut line = Vec::new(alloc);
    for number in 0..u64::MAX {
        match logs_next(alloc, &mut lines, &mut line) {
            Ok(true) => {}
            Ok(false) => return Ok(number),
            Err(fault) => return Err(broken_off(fault)),
        }
    }
    // No memory holds so many lines.
    Err(StateFault::NoMemory)
}

/// Whether a line comes next that logs an event.
fn logs_next<L: EventLines>(
    alloc: Global,
    lines: &mut L,
    line: &mut Vec<u8>,
) -> Result<bool, StateFault>
    ensures logged { IfOk result (λ logs. logs ≡ true →
        length (events_in_front (L.coming lines.old))
        ≡ 1 + length (events_in_front (L.coming lines.new))) }
    ensures none { IfOk result (λ logs. logs ≡ false →
        events_in_front (L.coming lines.old) ≡ []) }
{
    let mut buf = [0; 1024];
    match next_row(alloc, lines, line, &mut buf)? {
        Row::Event(_) => Ok(true),
        Row::Wrong | Row::End => Ok(false),
    }
}
