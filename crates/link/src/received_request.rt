//! A request as a station receives it.
ghost use Rattle.std.specs.Prelude.{◌≡◌, ◌≤◌, [], length};
ghost use Rattle.ft12.specs.Borrowed.{owned, FitsMemory};
ghost use Rattle.link.specs.Answers.{answer_of};
ghost use Rattle.link.specs.declared.service.Asked.TheVariants as request;
ghost use Rattle.link.specs.declared.service.Service.TheVariants as service;
ghost use Rattle.link.specs.Received.{with_data};

use crate::answer::Answer;
use crate::asdu::{CommandOctets, UserData};
use crate::service::{Asked, Service};
use ft12::FrameRef;
use std::marker::Model;

/// A request as a station receives it: its user data may be as long as a frame has room for.
#[derive(Drop)]
pub struct ReceivedRequest {
    /// What is asked, but for the octets of a command.
    pub(crate) bare: Asked,
    /// The octets of a command.
    pub(crate) asdu: UserData,
}

impl Model for ReceivedRequest {
    ghost use Rattle.link.specs.Answers.{Asked};
    ghost use Rattle.link.specs.Received.{with_data};

    ghost Value = { Asked };

    ghost view = { λ r. with_data r.asdu r.bare };
}

impl ReceivedRequest {
    /// A request without user data: those of a command are left out.
    pub(crate) fn bare(bare: Asked) -> ReceivedRequest
        ensures { result ≡ with_data [] bare }
    {
        ReceivedRequest {
            bare,
            asdu: UserData::new(&[]),
        }
    }

    /// To take these user data.
    pub(crate) fn command(fcb: bool, octets: &[u8]) -> ReceivedRequest
        requires { length octets.now ≤ 253 }
        ensures { result ≡ request.Counted fcb (service.Command octets.now) }
    {
        ReceivedRequest {
            bare: Asked::Counted(fcb, Service::Command(CommandOctets::new(&[]))),
            asdu: UserData::new(octets),
        }
    }

    /// The request, but for the octets of a command.
    pub fn asked(&self) -> &Asked
        ensures { with_data [] result.now ≡ with_data [] self.now }
    {
        &self.bare
    }

    /// What a frame says in answer to this request to the station, or nothing if it doesn't fit.
    /// Asks for at most 253 octets of data.
    pub fn answered_by<'a>(&self, station: u16, frame: FrameRef<'a>) -> Option<Answer<'a>>
        requires { FitsMemory frame }
        ensures { result ≡ answer_of station self.now (owned frame.entry) }
    {
        self.bare.answered_by(station, frame)
    }
}
