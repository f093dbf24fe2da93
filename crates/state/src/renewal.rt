//! When a log is begun anew, and when the keeper reports that none is kept.
ghost use Rattle.std.specs.Prelude.{◌≡◌, ℕ, List};
ghost use Rattle.state.specs.Lines.{is_renewal_due};
ghost use Rattle.state.specs.Renewals.{after_notice, has_passed, is_try_due, moment_after};
ghost use Rattle.state.specs.Renewals.{notice_of};
ghost use Rattle.gateway.specs.Ports.{logged_by};

use gateway::Next;
use live::Notice;
use std::io::ErrorKind;

/// How many octets of events a log has at most before a new one is begun. Two logs stay below twice
/// a checkpoint and 8,000,000 octets by that.
const MOST_OCTETS: u64 = 3_900_000;

/// How long it takes until a new log is tried again, in ms.
const RETRY_MS: u64 = 10_000;

/// How long it takes until the keeper reports again that the state isn't kept, in ms.
const NOTICE_MS: u64 = 60_000;

/// Whether a log is begun anew, whose events have so many octets.
pub fn is_renewal_due(events: u64) -> bool
    ensures { result ≡ is_renewal_due events }
{
    MOST_OCTETS < events
}

/// What was tried and reported while the state wasn't kept: moments in ms.
#[derive(Clone, Copy)]
pub struct Patience {
    /// That of the latest event.
    pub moment: u64,
    /// When a new log was tried last, and couldn't be begun.
    pub tried: Option<u64>,
    /// When the keeper last reported that the state isn't kept.
    pub logged: Option<u64>,
}

/// Whether so many ms have passed since, or it never was.
fn has_passed(ms: u64, since: Option<u64>, now: u64) -> bool
    ensures { result ≡ has_passed ms since now }
{
    match since {
        None => true,
        Some(since) => ms <= now.saturating_sub(since),
    }
}

impl Patience {
    /// Nothing was tried or reported yet.
    pub const NEW: Patience = Patience {
        moment: 0,
        tried: None,
        logged: None,
    };

    /// An event came, if this answer has one.
    pub(crate) fn receive(&mut self, next: Next)
        ensures { (buf : List ℕ) → self.new ≡ record self.old {
          moment = moment_after (logged_by next buf) self.old.moment;
        } }
    {
        match next {
            Next::Line(now, _) | Next::Bytes(now, _) | Next::Wall(now, _) => self.moment = now,
            Next::Open(now) | Next::Cut(now) | Next::Tick(now) => self.moment = now,
            Next::Done | Next::Fault => {}
        }
    }

    /// Whether a new log is tried now, if the state isn't kept.
    pub fn is_try_due(&self) -> bool
        ensures { result ≡ is_try_due self.now }
    {
        has_passed(RETRY_MS, self.tried, self.moment)
    }

    /// What is to be reported now, if anything: that the state isn't kept, for this cause, or that
    /// it is kept again.
    pub fn notice(&mut self, is_given_up: bool, cause: Option<ErrorKind>) -> Option<Notice>
        ensures notice { result ≡ notice_of is_given_up cause self.old }
        ensures after { self.new ≡ after_notice result self.old }
    {
        if is_given_up {
            if !has_passed(NOTICE_MS, self.logged, self.moment) {
                return None;
            }
            self.logged = Some(self.moment);
            return Some(Notice::NotKept(cause));
        }
        match self.logged {
            None => None,
            Some(_) => {
                self.logged = None;
                Some(Notice::KeptAgain)
            }
        }
    }
}
