//! What moment an event bears, so that a stall of the gateway is no late answer of the line.
ghost use Rattle.std.specs.Prelude.{◌≡◌};
ghost use Rattle.live.specs.Timing.{moment_at, is_behind, is_waited_out, is_awaited};
ghost use Rattle.live.specs.Timing.{line_looked_at, told_at};
ghost use Rattle.live.specs.Timing.{asked_at};

/// How far the moment of what a control centre sends may be behind the clock, in ms.
// A healthy machine stays below it, and a selection lasts for seconds.
const LAG_MS: u64 = 50;

/// A request that went out, in ms: the moment of its step, and the clock's once it was written.
#[derive(Clone, Copy, PartialEq, Eq)]
pub(crate) struct WrittenRequest {
    pub(crate) moment: u64,
    pub(crate) written: u64,
}

/// What decides the moment of an event.
#[derive(Clone, Copy, PartialEq, Eq)]
pub(crate) struct Timing {
    /// How long an answer is awaited, in ms.
    pub(crate) answer_ms: u64,
    /// The clock's moment before the latest look at the line, in ms.
    pub(crate) looked: u64,
    /// The latest request.
    pub(crate) request: Option<WrittenRequest>,
}

impl Timing {
    /// The moment that an event bears, if the clock shows `now`. It is the clock's, but as long as
    /// the line hasn't been looked at for `answer_ms` after the latest request was written, it
    /// doesn't end that request's exchange.
    pub(crate) fn moment(&self, now: u64) -> u64
        ensures { result ≡ moment_at self.now now }
    {
        let Some(request) = self.request else {
            return now;
        };
        if self.is_waited_out(request) {
            return now;
        }
        if now.saturating_sub(request.moment) < self.answer_ms {
            return now;
        }
        // The eve of that end, one ms before it. To take the moment before a look that found
        // nothing would be simpler, but could still end an exchange too early (docs/DECISIONS.md,
        // "The moment of a live event").
        request.moment + self.answer_ms.saturating_sub(1)
    }

    /// That moment is too far behind the clock for what a control centre sends: a selection would
    /// last too long.
    pub(crate) fn is_behind(&self, now: u64) -> bool
        ensures { result ≡ is_behind self.now now }
    {
        LAG_MS < now.saturating_sub(self.moment(now))
    }

    /// The moment that is borne by an event which is given at this moment of the clock. It is that
    /// one, but if it is too far behind the clock, and the event brings octets of the line that end
    /// as a frame does, it is the clock's. A gateway takes them before it ends the exchange, so
    /// that no answer is late by that, and its next request goes out at the clock's moment.
    pub(crate) fn told(&self, ends_frame: bool, now: u64) -> u64
        ensures { result ≡ told_at self.now ends_frame now }
    {
        // By a moment that is held each exchange would take up `answer_ms` of a stall at the most,
        // and a control centre wait so long behind a jump of the clock.
        if ends_frame && self.is_behind(now) {
            return now;
        }
        self.moment(now)
    }

    /// An answer to the latest request may still come in its time: the line hasn't been looked at
    /// for `answer_ms` since that was written.
    pub(crate) fn is_awaited(&self) -> bool
        ensures { result ≡ is_awaited self.now }
    {
        match self.request {
            Some(request) => !self.is_waited_out(request),
            None => false,
        }
    }

    /// The line has been looked at for `answer_ms` since this request was written.
    fn is_waited_out(&self, request: WrittenRequest) -> bool
        ensures { result ≡ is_waited_out self.now request }
    {
        self.answer_ms <= self.looked.saturating_sub(request.written)
    }

    /// A look at the line begins.
    pub(crate) fn look(&mut self, begun: u64)
        ensures { self.new ≡ line_looked_at begun self.old }
    {
        self.looked = begun;
    }

    /// A request of this moment has been written.
    pub(crate) fn ask(&mut self, moment: u64, written: u64)
        ensures { self.new ≡ asked_at moment written self.old }
    {
        self.request = Some(WrittenRequest { moment, written });
    }
}
