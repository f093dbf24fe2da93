//! The control octets of the three formats (IEC 60870-5-104, 5).

ghost use Rattle.std.specs.Prelude.{◌≡◌, ◌%◌, ◌^◌, ◌<◌, [], ◌∷◌};
ghost use Rattle.apci.specs.Spelling.{counter, function};
ghost use Rattle.apci.specs.Control.{IsFormat};

use crate::apdu::Uf;
use byteorder::{ByteOrder, LittleEndian};

/// The format that a first control octet names.
#[derive(Clone, Copy)]
pub(crate) enum Format {
    I,
    S,
    U(Uf),
    Unknown,
}

/// The format that the first control octet names.
pub(crate) fn format_of(control: u8) -> Format
    ensures { IsFormat result control }
{
    match control {
        0x01 => Format::S,
        0x07 => Format::U(Uf::StartAct),
        0x0B => Format::U(Uf::StartCon),
        0x13 => Format::U(Uf::StopAct),
        0x23 => Format::U(Uf::StopCon),
        0x43 => Format::U(Uf::TestAct),
        0x83 => Format::U(Uf::TestCon),
        _ if control % 2 == 0 => Format::I,
        _ => Format::Unknown,
    }
}

impl Uf {
    /// The first control octet.
    pub(crate) fn octet(self) -> u8
        ensures { result ≡ function self }
    {
        match self {
            Uf::StartAct => 0x07,
            Uf::StartCon => 0x0B,
            Uf::StopAct => 0x13,
            Uf::StopCon => 0x23,
            Uf::TestAct => 0x43,
            Uf::TestCon => 0x83,
        }
    }
}

/// The counter in two control octets.
pub(crate) fn counter_of(low: u8, high: u8) -> u16
    requires { low % 2 ≡ 0 }
    ensures value { counter result ≡ low ∷ high ∷ [] }
    ensures fits { result < 2 ^ 15 }
{
    LittleEndian::read_u16(&[low, high]) / 2
}
