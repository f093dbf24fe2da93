//! What is logged of slow syncs of the state.
ghost use Rattle.std.specs.Prelude.{◌≡◌};
ghost use Rattle.runlog.specs.SyncLines as spec;

use crate::ends::changed;
use crate::limit::Limit;
use crate::note::{LogLine, Note};
use live::SyncTimes;

/// What is logged of slow syncs.
#[derive(Clone, Copy, PartialEq, Eq)]
pub(crate) struct SyncWatch {
    /// How many there were when the latest line was logged.
    told: u64,
    limit: Limit,
}

impl SyncWatch {
    pub(crate) fn new() -> SyncWatch
        ensures { result ≡ spec.new_syncs }
    {
        SyncWatch {
            told: 0,
            limit: Limit::new(),
        }
    }

    /// These were slow so far. A line says the last and the longest of them, once a minute at most
    /// and only if there are more.
    pub(crate) fn see(&mut self, syncs: SyncTimes, now: u64) -> Option<LogLine>
        ensures { (self.new, result) ≡ spec.syncs_seen syncs now self.old }
    {
        if syncs.count <= self.told || !self.limit.is_minute_after(now) {
            return None;
        }
        let note = Note::SlowSync(syncs.last_ms, syncs.longest_ms);
        let line = changed(note, &mut self.limit, now)?;
        self.told = syncs.count;
        Some(line)
    }
}
