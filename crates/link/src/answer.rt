//! Which frames answer which request.
ghost use Rattle.std.specs.Prelude.{◌≡◌, length, ◌≤◌};
ghost use Rattle.ft12.specs.Borrowed.{owned, FitsMemory};
ghost use Rattle.link.specs.Control.{secondary_code};
ghost use Rattle.link.specs.Answers.{unable_answer, service_answer, code_answer, single_answer};
ghost use Rattle.link.specs.Answers.{data_answer, answer_of};

use crate::asdu::AsduRef;
use crate::control::{Control, SecondaryFunction};
use crate::service::{Asked, Service};
use ft12::FrameRef;

/// What an answer says. Its user data stand in the frame.
#[derive(Drop)]
pub enum Answer<'a> {
    /// The status of the link: it can be reset.
    Ready,
    /// It is done (a positive acknowledgement, or the single character).
    Confirmed,
    /// The link is busy: the user data weren't taken.
    Busy,
    /// User data.
    Report(AsduRef<'a>),
    /// No such data are there (as a function, or by the single character).
    NoData,
    /// The service isn't functioning, or isn't implemented.
    Unable,
}

fn unable<'a>(function: SecondaryFunction) -> Option<Answer<'a>>
    ensures { result ≡ unable_answer (secondary_code function) }
{
    match function {
        SecondaryFunction::NotFunctioning | SecondaryFunction::NotImplemented => {
            Some(Answer::Unable)
        }
        _ => None,
    }
}

fn to_service<'a>(service: &Service, function: SecondaryFunction) -> Option<Answer<'a>>
    ensures { result ≡ service_answer service.now (secondary_code function) }
{
    match (service, function) {
        (Service::Class1 | Service::Class2, SecondaryFunction::NoData) => Some(Answer::NoData),
        (Service::Command(_), SecondaryFunction::Confirm) => Some(Answer::Confirmed),
        (Service::Command(_), SecondaryFunction::Busy) => Some(Answer::Busy),
        (_, _) => unable(function),
    }
}

impl Asked {
    fn single<'a>(&self) -> Option<Answer<'a>>
        ensures { result ≡ single_answer self.now }
    {
        match self {
            // The single character stands for an ACK or for 'no data', and a status is neither.
            Asked::Status => None,
            Asked::Reset | Asked::Counted(_, Service::Command(_)) => Some(Answer::Confirmed),
            Asked::Counted(_, _) => Some(Answer::NoData),
        }
    }

    fn said<'a>(&self, function: SecondaryFunction) -> Option<Answer<'a>>
        ensures { result ≡ code_answer self.now (secondary_code function) }
    {
        match (self, function) {
            (Asked::Status, SecondaryFunction::LinkStatus) => Some(Answer::Ready),
            (Asked::Status, _) => unable(function),
            (Asked::Reset, SecondaryFunction::Confirm) => Some(Answer::Confirmed),
            // Also 14 and 15 (docs/DECISIONS.md, "14 or 15 in answer to a reset").
            (Asked::Reset, _) => None,
            (Asked::Counted(_, service), _) => to_service(service, function),
        }
    }

    fn data<'a>(&self, octets: &'a [u8]) -> Option<Answer<'a>>
        requires { length octets.now ≤ 253 }
        ensures { result ≡ data_answer self.now octets.now }
    {
        match self {
            Asked::Counted(_, Service::Class1 | Service::Class2) => {
                Some(Answer::Report(AsduRef::new(octets)))
            }
            _ => None,
        }
    }

    /// What a frame says in answer to this request to the station, or nothing if it doesn't fit.
    /// Asks for at most 253 octets of data.
    pub fn answered_by<'a>(&self, station: u16, frame: FrameRef<'a>) -> Option<Answer<'a>>
        requires { FitsMemory frame }
        ensures { result ≡ answer_of station self.now (owned frame.entry) }
    {
        match frame {
            FrameRef::Single => self.single(),
            // Bit 7 isn't looked at: unbalanced transmission reserves it. A frame with PRM 1 is a
            // request, and one of another address isn't this station's.
            FrameRef::Fixed { c, a } => match Control::from_octet(c) {
                Control::Secondary { function, .. } if a == station => self.said(function),
                _ => None,
            },
            FrameRef::Data { c, a, body } => match Control::from_octet(c) {
                Control::Secondary {
                    function: SecondaryFunction::UserData,
                    ..
                } if a == station => self.data(body),
                _ => None,
            },
        }
    }
}
