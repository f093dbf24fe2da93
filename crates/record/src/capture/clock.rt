//! The moments of a record as times of the wall clock.
ghost use Rattle.std.specs.Prelude.{◌≡◌};
ghost use Rattle.record.specs.Clocks.{micros_of, moved as moved_to, shown as shown_then};

use gateway::LAST_MOMENT;

/// The latest moment of a record, in milliseconds, and what the wall clock showed.
#[derive(Clone, Copy)]
pub(crate) struct Clock {
    /// The greatest moment so far.
    pub(crate) latest: u64,
    /// What the wall clock showed, in milliseconds since 1970-01-01 UTC, and the moment at which it
    /// did. Before its first event, 1970 at moment 0.
    pub(crate) wall: u64,
    pub(crate) wall_at: u64,
}

impl Clock {
    /// Before the first event.
    pub(crate) const BEGUN: Clock = Clock {
        latest: 0,
        wall: 0,
        wall_at: 0,
    };

    /// An event comes. A moment that goes back counts as the greatest so far.
    pub(crate) fn moved(self, now: u64) -> Clock
        ensures { result ≡ moved_to self now }
    {
        Clock {
            latest: self.latest.max(now.min(LAST_MOMENT)),
            ..self
        }
    }

    /// The wall clock shows a number.
    pub(crate) fn shown(self, number: u64) -> Clock
        ensures { result ≡ shown_then self number }
    {
        Clock {
            wall: number,
            wall_at: self.latest,
            ..self
        }
    }

    /// The time of what passes now, in microseconds since 1970-01-01 UTC.
    pub(crate) fn micros(self) -> u64
        ensures { result ≡ micros_of self }
    {
        let since = self.latest.saturating_sub(self.wall_at);
        self.wall.saturating_add(since).saturating_mul(1000)
    }
}
