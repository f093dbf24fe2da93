//! What is logged of the queue.
ghost use Rattle.std.specs.Prelude.{◌≡◌};
ghost use Rattle.runlog.specs.Watching as spec;

use crate::ends::changed;
use crate::limit::Limit;
use crate::note::{LogLine, Note};

/// The most places that a report takes: if fewer are free nothing is polled.
const REPORT_PLACES: u64 = 3;

/// What is logged of the queue.
#[derive(Clone, Copy, PartialEq, Eq)]
pub(crate) struct QueueWatch {
    /// What was logged last.
    is_full: bool,
    full: Limit,
    free: Limit,
}

impl QueueWatch {
    pub(crate) fn new() -> QueueWatch
        ensures { result ≡ spec.new_queue }
    {
        QueueWatch {
            is_full: false,
            full: Limit::new(),
            free: Limit::new(),
        }
    }

    /// So many of its places are taken.
    pub(crate) fn see(&mut self, taken: u64, places: u64, now: u64) -> Option<LogLine>
        ensures { (self.new, result) ≡ spec.queue_seen taken places now self.old }
    {
        let is_full = places.saturating_sub(taken) < REPORT_PLACES;
        if is_full == self.is_full {
            return None;
        }
        let line = if is_full {
            changed(Note::QueueFull, &mut self.full, now)?
        } else {
            changed(Note::QueueFree, &mut self.free, now)?
        };
        self.is_full = is_full;
        Some(line)
    }
}
