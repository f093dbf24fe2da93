//! A line a second.
ghost use Rattle.std.specs.Prelude.{◌≡◌, None};
ghost use Rattle.runlog.specs.Limits.{asked, is_free, is_minute_after, none_left, one_left};

/// How long after a line the next one of its kind may follow, in ms.
const APART_MS: u64 = 1000;

/// How long after a line of what lasts it is logged again, in ms.
const MINUTE_MS: u64 = 60_000;

/// What was left out before a line.
#[derive(Clone, Copy, PartialEq, Eq, Default)]
pub struct LeftOut {
    /// How many lines of its kind.
    pub count: u64,
    /// The moment of the first of them, in ms, or 0 if there is none.
    pub since: u64,
}

impl LeftOut {
    /// Nothing.
    pub fn none() -> LeftOut
        ensures { result ≡ none_left }
    {
        LeftOut { count: 0, since: 0 }
    }

    /// One more is left out, of this moment.
    fn add(&mut self, now: u64)
        ensures { self.new ≡ one_left now self.old }
    {
        if self.count == 0 {
            self.since = now;
        }
        self.count = self.count.saturating_add(1);
    }
}

/// When a line of a kind was logged last, in ms, and what has been left out since.
#[derive(Clone, Copy, PartialEq, Eq)]
pub struct Limit {
    logged: Option<u64>,
    left_out: LeftOut,
}

impl Limit {
    /// That of a kind of which no line was logged yet.
    pub fn new() -> Limit
        ensures { result ≡ record { logged = None; left_out = none_left } }
    {
        Limit {
            logged: None,
            left_out: LeftOut::none(),
        }
    }

    /// A line may be logged at this moment.
    pub fn is_free(&self, now: u64) -> bool
        ensures { result ≡ is_free self.now now }
    {
        match self.logged {
            None => true,
            Some(logged) => APART_MS <= now.saturating_sub(logged),
        }
    }

    /// A minute has passed since a line was logged, if one was.
    pub fn is_minute_after(&self, now: u64) -> bool
        ensures { result ≡ is_minute_after self.now.logged now }
    {
        match self.logged {
            None => true,
            Some(logged) => MINUTE_MS <= now.saturating_sub(logged),
        }
    }

    /// One more is left out, of this moment.
    pub fn leave_out(&mut self, now: u64)
        ensures { self.new ≡ record self.old { left_out = one_left now self.old.left_out } }
    {
        self.left_out.add(now);
    }

    /// Asks for a line at this moment. The answer is what was left out before it, or none if it is
    /// left out too.
    pub fn ask(&mut self, now: u64) -> Option<LeftOut>
        ensures { (self.new, result) ≡ asked self.old now }
    {
        if !self.is_free(now) {
            self.leave_out(now);
            return None;
        }
        let left_out = self.left_out;
        self.logged = Some(now);
        self.left_out = LeftOut::none();
        Some(left_out)
    }
}
