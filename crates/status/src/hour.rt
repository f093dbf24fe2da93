//! How many places of the queue were taken in the last hour.
ghost use Rattle.std.specs.Prelude.{◌≡◌, None, []};
ghost use Rattle.status.specs.Hour.{Samples, is_due, noted};

use arrayvec::ArrayVec;
use std::marker::Model;

/// How long it is from one number to the next, in ms.
const APART_MS: u64 = 60_000;

/// The numbers of an hour, one a minute, the oldest first.
#[derive(Drop)]
pub struct Hour {
    numbers: ArrayVec<u64, 60>,
    /// When the last one was noted, in ms of the run.
    noted_ms: Option<u64>,
}

impl Model for Hour {
    ghost use Rattle.status.specs.Hour.{Samples};

    ghost Value = { Samples };

    ghost view = { λ h. record { numbers = h.numbers.items; noted_ms = h.noted_ms } };
}

impl Hour {
    /// No number yet.
    pub fn new() -> Hour
        ensures { result ≡ record { numbers = []; noted_ms = None } }
    {
        Hour {
            numbers: ArrayVec::new(),
            noted_ms: None,
        }
    }

    /// So many places are taken at this moment of the run: notes it, if a minute has passed since
    /// the last time. Of 60 numbers the oldest goes.
    pub fn note(&mut self, now_ms: u64, taken: u64)
        ensures { self.new ≡ noted now_ms taken self.old }
    {
        if !self.is_due(now_ms) {
            return;
        }
        if self.numbers.is_full() {
            self.numbers.remove(0);
        }
        self.numbers.push(taken);
        self.noted_ms = Some(now_ms);
    }

    /// A minute has passed since the last time.
    fn is_due(&self, now_ms: u64) -> bool
        ensures { result ≡ is_due now_ms self.now.noted_ms }
    {
        match self.noted_ms {
            Some(noted_ms) => APART_MS <= now_ms.saturating_sub(noted_ms),
            None => true,
        }
    }

    /// The numbers, the oldest first.
    pub fn numbers(&self) -> &[u64]
        ensures { result.now ≡ self.now.numbers }
    {
        self.numbers.as_slice()
    }
}

impl Default for Hour {
    fn default() -> Hour {
        Hour::new()
    }
}
