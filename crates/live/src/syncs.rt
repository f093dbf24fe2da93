//! How long syncs of a state take.
ghost use Rattle.std.specs.Prelude.{◌≡◌};
ghost use Rattle.live.specs.Syncs.{no_sync, sync_noted};

/// From how many ms on a sync is slow.
const SLOW_MS: u64 = 100;

/// How long syncs of the state on the disk took. Slow ones took 100 ms or more.
#[derive(Clone, Copy, PartialEq, Eq)]
pub struct SyncTimes {
    /// How long the latest sync took, in ms; 0 before the first.
    pub latest_ms: u64,
    /// How many slow ones there were, at most `u64::MAX`.
    pub count: u64,
    /// How long the last slow one took, in ms.
    pub last_ms: u64,
    /// How long the longest slow one took, in ms.
    pub longest_ms: u64,
}

impl SyncTimes {
    /// There was no sync.
    pub fn none() -> SyncTimes
        ensures { result ≡ no_sync }
    {
        SyncTimes {
            latest_ms: 0,
            count: 0,
            last_ms: 0,
            longest_ms: 0,
        }
    }

    /// A sync took so long, in ms.
    pub fn note(&mut self, ms: u64)
        ensures { self.new ≡ sync_noted ms self.old }
    {
        self.latest_ms = ms;
        if ms < SLOW_MS {
            return;
        }
        self.count = self.count.saturating_add(1);
        self.last_ms = ms;
        self.longest_ms = self.longest_ms.max(ms);
    }
}
