//! What is counted of the sessions of one station's link.
ghost use Rattle.std.specs.Prelude.{◌≡◌};
ghost use Rattle.link.specs.Turns.{is_poll};
ghost use Rattle.sim.specs.Tallies.{fresh_tally, tally_asked, tally_reset, tally_served};
ghost use Rattle.sim.specs.Tallies.{tally_answered};

use link::{Answer, Asked, ReceivedRequest, Service};

/// What is counted of a station: of its link's sessions, each from one answered reset to the next,
/// and of its reports. No count goes past `u64::MAX`.
#[derive(Clone, Copy, PartialEq, Eq)]
pub struct StationTally {
    /// How many resets of its link were answered.
    pub sessions: u64,
    /// How many of them ended a session with a gap.
    pub gaps: u64,
    /// How many of the reports that it gave in ended sessions are in no answered poll.
    pub lost: u64,
    /// How many reports came in answered polls.
    pub taken: u64,
    /// How many reports it had given when the latest request to it went out.
    pub given: u64,
    /// The latest request of the session with a valid frame count bit is a poll, and wasn't
    /// answered that it is served.
    pub is_polled: bool,
}

fn is_poll(service: &Service) -> bool
    ensures { result ≡ is_poll service.now }
{
    match service {
        Service::Class1 | Service::Class2 => true,
        Service::Command(_) => false,
    }
}

impl StationTally {
    /// Before the first request.
    pub(crate) const fn fresh() -> StationTally
        ensures { result ≡ fresh_tally }
    {
        StationTally {
            sessions: 0,
            gaps: 0,
            lost: 0,
            taken: 0,
            given: 0,
            is_polled: false,
        }
    }

    /// A request goes out to the station, which has given so many reports.
    pub(crate) fn asked(self, request: &ReceivedRequest, given: u64) -> StationTally
        ensures { result ≡ tally_asked request.now given self }
    {
        self.asked_bare(request.asked(), given)
    }

    /// The same, if of a command no octets are known.
    fn asked_bare(self, request: &Asked, given: u64) -> StationTally
        ensures { result ≡ tally_asked request.now given self }
    {
        match request {
            Asked::Status | Asked::Reset => StationTally { given, ..self },
            Asked::Counted(_, service) => StationTally {
                given,
                is_polled: is_poll(service),
                ..self
            },
        }
    }

    /// A reset of the link is answered.
    fn reset(self) -> StationTally
        ensures { result ≡ tally_reset self }
    {
        // What comes before the first reset is no session.
        let ends_with_gap = self.is_polled && self.sessions != 0;
        StationTally {
            sessions: self.sessions.saturating_add(1),
            gaps: if ends_with_gap {
                self.gaps.saturating_add(1)
            } else {
                self.gaps
            },
            lost: self.given.saturating_sub(self.taken),
            is_polled: false,
            ..self
        }
    }

    /// A poll or a command is answered.
    fn served(self, service: &Service, answer: &Answer<'_>) -> StationTally
        ensures { result ≡ tally_served service.now answer.now self }
    {
        match answer {
            Answer::Report(_) => StationTally {
                taken: if is_poll(service) {
                    self.taken.saturating_add(1)
                } else {
                    self.taken
                },
                is_polled: false,
                ..self
            },
            // 14 or 15 says nothing of a report (docs/DECISIONS.md, "A gap may be none").
            Answer::Unable => self,
            _ => StationTally {
                is_polled: false,
                ..self
            },
        }
    }

    /// The request that went out last is answered.
    pub(crate) fn answered(self, request: &ReceivedRequest, answer: &Answer<'_>) -> StationTally
        ensures { result ≡ tally_answered request.now answer.now self }
    {
        self.answered_bare(request.asked(), answer)
    }

    /// The same, if of a command no octets are known.
    fn answered_bare(self, request: &Asked, answer: &Answer<'_>) -> StationTally
        ensures { result ≡ tally_answered request.now answer.now self }
    {
        match (request, answer) {
            (Asked::Reset, Answer::Confirmed) => self.reset(),
            (Asked::Counted(_, service), _) => self.served(service, answer),
            (_, _) => self,
        }
    }
}
