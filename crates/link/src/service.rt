//! What a primary station asks of a secondary one.
ghost use Rattle.std.specs.Prelude.{◌≡◌};

use crate::asdu::CommandOctets;

/// What a request with a valid frame count bit (FCV 1) asks for.
#[derive(Drop)]
pub enum Service {
    /// User data of class 1.
    Class1,
    /// User data of class 2.
    Class2,
    /// To take user data, and confirm it.
    Command(CommandOctets),
}

impl Service {
    /// The same service.
    pub fn copied(&self) -> Service
        ensures { result ≡ self.now }
    {
        match self {
            Service::Class1 => Service::Class1,
            Service::Class2 => Service::Class2,
            Service::Command(command) => Service::Command(command.copied()),
        }
    }
}

/// What a request asks for. Services are counted by the frame count bit.
#[derive(Drop)]
pub enum Asked {
    /// The status of the link.
    Status,
    /// To reset the link.
    Reset,
    /// A service, with its frame count bit.
    Counted(bool, Service),
}

impl Asked {
    /// The same.
    pub fn copied(&self) -> Asked
        ensures { result ≡ self.now }
    {
        match self {
            Asked::Status => Asked::Status,
            Asked::Reset => Asked::Reset,
            Asked::Counted(fcb, service) => Asked::Counted(*fcb, service.copied()),
        }
    }
}
