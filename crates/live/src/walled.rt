//! When the wall clock is given.
ghost use Rattle.std.specs.Prelude.{◌≡◌, true};
ghost use Rattle.live.specs.Walls.{is_wall_due, never_given, given_at_moment};

/// How long after the wall clock was given it is given again, in ms.
const APART_MS: u64 = 1000;

/// When the wall clock was given last.
#[derive(Clone, Copy, PartialEq, Eq)]
pub(crate) struct Walled {
    /// The clock's moment then, in ms; none before the first time.
    given: Option<u64>,
    /// The ends have been looked at since.
    // Else a gateway that stalls for a second at each call would give nothing but the wall clock
    // (docs/DECISIONS.md, "The wall clock in a live run").
    has_looked: bool,
}

impl Walled {
    /// The wall clock hasn't been given yet.
    pub(crate) fn new() -> Walled
        ensures { result ≡ never_given }
    {
        Walled {
            given: None,
            has_looked: false,
        }
    }

    /// The wall clock is to be given at this moment of the clock.
    pub(crate) fn is_due(&self, now: u64) -> bool
        ensures { result ≡ is_wall_due self.now now }
    {
        match self.given {
            None => true,
            Some(given) => self.has_looked && APART_MS <= now.saturating_sub(given),
        }
    }

    /// It is given at this moment of the clock.
    pub(crate) fn give(&mut self, now: u64)
        ensures { self.new ≡ given_at_moment now }
    {
        self.given = Some(now);
        self.has_looked = false;
    }

    /// The ends are looked at.
    pub(crate) fn look(&mut self)
        ensures { self.new ≡ record self.old { has_looked = true } }
    {
        self.has_looked = true;
    }
}
