//! Sessions of a link: each lies between two answered resets, and a report may be lost when one
//! ends.
ghost use Rattle.std.specs.Prelude.{◌≡◌};
ghost use Rattle.link.specs.Primary.{session_asked, session_answered, gap_of};

use crate::answer::Answer;
use crate::service::Asked;
use crate::turn::poll_service;

/// What the primary keeps of a station's latest session.
#[derive(Clone, Copy)]
pub struct SessionState {
    /// Its number, from 1 to `u64::MAX`, or 0 before the first answered reset.
    pub number: u64,
    /// The latest service is a poll, and wasn't answered by data or that there are none.
    pub has_gap: bool,
}

impl SessionState {
    /// A request goes out.
    pub(crate) fn ask(&mut self, request: &Asked)
        ensures { self.new ≡ session_asked self.old request.now }
    {
        // The station may have given a report that is lost with the session. A command brings
        // none.
        if let Asked::Counted(_, service) = request {
            self.has_gap = poll_service(service);
        }
    }

    /// A request was answered.
    #[tactic(auto, unfolding(crate::specs::Primary::session_answered))]
    pub(crate) fn answer(&mut self, request: &Asked, answer: &Answer<'_>)
        ensures { self.new ≡ session_answered self.old request.now answer.now }
    {
        match (request, answer) {
            (Asked::Reset, Answer::Confirmed) => {
                self.number = self.number.saturating_add(1);
                // A second reset in a row ends a session without a poll.
                self.has_gap = false;
            }
            // 14 or 15 says nothing of a report: the station may have given it in an answer that
            // was lost (docs/DECISIONS.md, "A gap may be none").
            (Asked::Counted(_, _), Answer::Unable) => {}
            (Asked::Counted(_, _), _) => self.has_gap = false,
            (_, _) => {}
        }
    }

    /// Its number, if it has a gap.
    pub(crate) fn gap(&self) -> Option<u64>
        ensures { result ≡ gap_of self.now }
    {
        if self.has_gap {
            Some(self.number)
        } else {
            None
        }
    }
}
