//! The wall clock.
ghost use Rattle.std.specs.Io.Iter.{u64_saturate};
ghost use Rattle.std.specs.Prelude.{◌≡◌, ◌+◌, ◌-◌};

/// What the wall clock showed at a moment.
#[derive(Clone, Copy)]
pub struct Wall {
    /// The moment, in milliseconds.
    pub moment: u64,
    /// Milliseconds since 1970-01-01 UTC.
    pub number: u64,
}

impl Wall {
    /// What it shows at a later moment.
    pub(crate) fn at(&self, moment: u64) -> u64
        ensures { result ≡ u64_saturate (self.now.number + (moment - self.now.moment)) }
    {
        self.number
            .saturating_add(moment.saturating_sub(self.moment))
    }
}
